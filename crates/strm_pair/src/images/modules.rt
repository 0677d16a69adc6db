//! The text of the modules of a stream, from the top.

ghost use Rattle.std.specs.Prelude.{◌≡◌, map, IfSome};
ghost use Rattle.std.specs.List.{AllByRecursion, flat_map};
ghost use Rattle.strm_laws.specs.Stacked.{OfLdterm, OfOwn, OfPtem, OfPckt, of_kind};
ghost use Rattle.strm_blocks.specs.Blocks.{StoreValue};
ghost use Rattle.strm_image.specs.Modules.{alone, module_format, modules};
ghost use Rattle.strm_image.specs.Sinks.{put};
ghost use Rattle.strm_image.specs.declared.versions.Version.TheVariants.{Second};
ghost use Rattle.strm_types.specs.Standings.{stood};
ghost use Rattle.strm_image.specs.Written.{pair_text};
ghost use Rattle.strm_frame.specs.Standings.{Fits, IsPairReady, queues_in, standing, standing_in};
ghost use Rattle.strm_ldterm.specs.Stands.{HasInHand, own_in};
ghost use Rattle.strm_pty.specs.Beside.{ptem_in};
ghost use Rattle.strm_pty.specs.Packs.{pckt_in};
ghost use Rattle.strm_pair.specs.AnyModules.{IsHeld, module_in};
ghost use Rattle.strm_pair.specs.Imaging.{settings_text};
ghost use Rattle.strm_pair.specs.Stacks.{IsStackHeld, modules_in};

use crate::images::queues::put_queue;
use crate::modules::AnyModule;
use crate::stacks::Stack;
use strm_blocks::Blocks;
use strm_frame::{QueuePair, Standing};
use strm_image::writing::{
    put_flag, put_line, put_module_name, put_ptem, put_settings, put_termios, put_u8, put_u32,
};
use strm_image::{QueueKind, Sink};
use strm_ldterm::Ldterm;
use strm_own::Own;
use strm_pty::Ptem;
use strm_types::ModuleName;

// What an ldterm has in front of its queues, behind its name.
#[tactic(auto, using(strm_image::proofs::SinkRows::put_both))]
fn put_line_modes(out: &mut Sink, ldterm: &Ldterm)
    ensures { (s : StoreValue) → out.new ≡ put (settings_text (own_in s ldterm.now)) out.old }
{
    put_module_name(out, ModuleName::Ldterm);
    put_termios(out, &ldterm.termios);
    put_flag(out, ldterm.stopped);
    put_flag(out, ldterm.after_lnext);
    put_u32(out, u32::from(ldterm.column));
    put_line(out, ldterm.line.bytes());
}

// An ldterm between two calls, and its queues.
fn put_ldterm<'a, B: Blocks>(
    store: &B,
    ldterm: &Ldterm,
    queues: &Option<QueuePair>,
    out: Sink<'a>,
) -> Sink<'a>
    requires held { Fits HasInHand (B.value store.now) (standing ldterm.now queues.now) }
    ensures { result ≡ put ((module_format Second).text (of_kind OfLdterm (standing_in own_in (B.value store.now) (standing ldterm.now queues.now))))
        out.entry }
{
    let Some(pair) = queues else { unreachable!() };
    let mut out = out;
    put_line_modes(&mut out, ldterm);
    let out = put_queue(store, &pair.read, QueueKind::ModuleRead, out);
    put_queue(store, &pair.write, QueueKind::ModuleWrite, out)
}

// A ptem, which has no queues.
#[tactic(auto, using(strm_image::proofs::SinkRows::put_both, strm_image::proofs::WrittenRows::ptem_told))]
fn put_ptem_module<'a>(ptem: &Ptem, out: Sink<'a>) -> Sink<'a>
    ensures { result ≡ put ((module_format Second).text (alone (OfPtem (ptem_in ptem.now)))) out.entry }
{
    let mut out = out;
    put_module_name(&mut out, ModuleName::Ptem);
    put_ptem(&mut out, &ptem.termios, ptem.window);
    out
}

// A pckt, which has nothing but its name.
#[tactic(auto, using(strm_image::proofs::WrittenRows::pckt_told))]
fn put_pckt<'a>(out: Sink<'a>) -> Sink<'a>
    ensures { result ≡ put ((module_format Second).text (alone (OfPckt pckt_in))) out.entry }
{
    let mut out = out;
    put_module_name(&mut out, ModuleName::Pckt);
    out
}

// The queues of a module, where it has any: the read queue, then the write queue.
#[tactic(auto, using(strm_image::proofs::SinkRows::put_both, strm_image::proofs::SinkRows::put_nothing))]
fn put_pair<'a, B: Blocks>(store: &B, queues: &Option<QueuePair>, out: Sink<'a>) -> Sink<'a>
    requires { IfSome queues.now (IsPairReady (B.value store.now)) }
    ensures { result ≡ put (pair_text (queues_in (B.value store.now) queues.now)) out.entry }
{
    match queues {
        None => out,
        Some(pair) => {
            let out = put_queue(store, &pair.read, QueueKind::ModuleRead, out);
            put_queue(store, &pair.write, QueueKind::ModuleWrite, out)
        }
    }
}

// A module of a user's own: its number, what it is set to, and its queues, where it has any.
#[tactic(auto, using(strm_image::proofs::SinkRows::put_both, strm_image::proofs::WrittenRows::own_told))]
fn put_own<'a, B: Blocks>(
    store: &B,
    own: &Own,
    queues: &Option<QueuePair>,
    out: Sink<'a>,
) -> Sink<'a>
    requires { IfSome queues.now (IsPairReady (B.value store.now)) }
    ensures { result ≡ put ((module_format Second).text (stood (OfOwn own.now) (queues_in (B.value store.now) queues.now))) out.entry }
{
    let mut out = out;
    put_module_name(&mut out, ModuleName::Own(own.number()));
    put_settings(&mut out, own.settings());
    put_pair(store, queues, out)
}

// A module, behind its name.
fn put_module<'a, B: Blocks>(store: &B, any: &Standing<AnyModule>, out: Sink<'a>) -> Sink<'a>
    requires held { IsHeld (B.value store.now) any.now }
    ensures { result ≡ put ((module_format Second).text (module_in (B.value store.now) any.now)) out.entry }
{
    match &any.module {
        AnyModule::Ldterm(ldterm) => put_ldterm(store, ldterm, &any.queues, out),
        AnyModule::Ptem(ptem) => put_ptem_module(ptem, out),
        AnyModule::Pckt(_) => put_pckt(out),
        AnyModule::Own(own) => put_own(store, own, &any.queues, out),
    }
}

// Modules, one behind the other.
#[tactic(auto, using(strm_image::proofs::SinkRows::put_both, strm_image::proofs::SinkRows::put_nothing))]
fn put_each<'a, B: Blocks>(store: &B, modules: &[Standing<AnyModule>], out: Sink<'a>) -> Sink<'a>
    requires held { AllByRecursion (IsHeld (B.value store.now)) modules.now }
    ensures { result ≡ put (flat_map (module_format Second).text (map (module_in (B.value store.now)) modules.now)) out.entry }
{
    let Some((first, rest)) = modules.split_first() else {
        return out;
    };
    let out = put_module(store, first, out);
    put_each(store, rest, out)
}

/// Writes the modules of a stream between two calls, with their number in front.
#[tactic(auto, using(strm_image::proofs::SinkRows::put_both, strm_image::proofs::WrittenRows::modules_told))]
pub(crate) fn put_modules<'a, B: Blocks>(store: &B, stack: &Stack, out: Sink<'a>) -> Sink<'a>
    requires held { IsStackHeld (B.value store.now) stack.now }
    ensures { result ≡ put ((modules Second).text (modules_in (B.value store.now) stack.now)) out.entry }
{
    let mut out = out;
    put_u8(&mut out, stack.modules.len() as u8);
    put_each(store, stack.modules.as_slice(), out)
}
