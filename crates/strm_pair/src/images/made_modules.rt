//! Modules of any kind as a text has them.

ghost use Rattle.std.specs.Prelude.{ℕ, ◌≡◌, ◌<◌, Option, is_some};
ghost use Rattle.strm_types.specs.Names.{have_queues};
ghost use Rattle.strm_laws.specs.Stacked.{kind_name};
ghost use Rattle.strm_blocks.specs.Blocks.{StoreValue};
ghost use Rattle.strm_frame.specs.Hands.{HasRoom};
ghost use Rattle.strm_frame.specs.declared.queue_pair.QueuePair as pairs;
ghost use Rattle.strm_image.specs.ModuleTexts.{kind_now};
ghost use Rattle.strm_pair.specs.AnyModules.{IsKindHeld, kind_in, kind_keeps};
ghost use Rattle.strm_pair.specs.Placing.{ArePlaced, IsFreeFor, IsKindText, IsModuleText, IsPlaced, module_blocks, queues_blocks, queues_pair, text_pair};

use crate::images::made_kinds::{ldterm_of, pair_of};
use crate::modules::AnyModule;
use crate::shelves::Shelf;
use strm_blocks::Blocks;
use strm_frame::{QueuePair, Standing};
use strm_image::{KindText, ModuleText, QueuesText};
use strm_own::Own;
use strm_pty::{Pckt, Ptem};

// Makes what a module of a text is by itself, between two turns: it fits any queues, where those of its name have some.
fn kind_of(text: &KindText<'_>) -> AnyModule
    requires { IsKindText text.now }
    ensures state { (s : StoreValue) → kind_in s result ≡ kind_now text.now }
    ensures held { (s : StoreValue) (queues : Option pairs.QueuePair) → is_some queues ≡ have_queues (kind_name (kind_now text.now)) →
        IsKindHeld s result queues }
    ensures rests { (i : ℕ) → kind_keeps result i ≡ 0 }
{
    match text {
        KindText::Ldterm(found) => AnyModule::Ldterm(ldterm_of(found)),
        KindText::Ptem(found) => AnyModule::Ptem(Ptem {
            termios: found.termios,
            window: found.window,
        }),
        KindText::Pckt => AnyModule::Pckt(Pckt),
        KindText::Own(found) => AnyModule::Own(Own::new(found.number, found.settings)),
    }
}

// Makes the queues of a module of a text, where it has any, on two lists of its own from a number on, where nothing stands, and takes their tables off
// the shelf.
fn queues_of<B: Blocks>(
    store: &mut B,
    first: usize,
    shelf: &mut Shelf,
    text: &Option<QueuesText<'_>>,
) -> Option<QueuePair>
    requires free { 0 < queues_pair text.now → IsFreeFor (B.value store.old) first shelf.old }
    requires room { HasRoom (B.value store.old) (queues_blocks text.now) }
    ensures { ArePlaced (B.value store.old) (B.value store.new) first shelf.old shelf.new text.now result }
{
    let Some(found) = text else {
        return None;
    };
    Some(pair_of(store, first, shelf.take(), found))
}

/// Makes a module of a text, with its queues where it has any.
pub(crate) fn module_of<B: Blocks>(
    store: &mut B,
    first: usize,
    shelf: &mut Shelf,
    text: &ModuleText<'_>,
) -> Standing<AnyModule>
    requires free { 0 < text_pair text.now → IsFreeFor (B.value store.old) first shelf.old }
    requires good { IsModuleText text.now }
    requires room { HasRoom (B.value store.old) (module_blocks text.now) }
    ensures { IsPlaced (B.value store.old) (B.value store.new) first shelf.old shelf.new text.now result }
{
    Standing {
        module: kind_of(&text.kind),
        queues: queues_of(store, first, shelf, &text.queues),
    }
}
