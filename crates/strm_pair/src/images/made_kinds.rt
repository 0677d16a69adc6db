//! Modules as a text has them, made in a store.

ghost use Rattle.std.specs.Prelude.{◌≡◌, ◌≤◌, ◌<◌, ◌+◌, ℕ, [], length, Some};
ghost use Rattle.strm_types.specs.declared.keys.TheConstants.{LINE_MAX};
ghost use Rattle.strm_types.specs.declared.limits.TheConstants.{LISTS};
ghost use Rattle.strm_blocks.specs.Blocks.{StoreValue, list_at};
ghost use Rattle.strm_frame.specs.declared.queue_pair.QueuePair as pairs;
ghost use Rattle.strm_frame.specs.Hands.{HasRoom, once};
ghost use Rattle.strm_frame.specs.Standings.{IsPairReady, pair_in, queues_own};
ghost use Rattle.strm_image.specs.ModuleTexts.{ldterm_now, pair_now};
ghost use Rattle.strm_ldterm.specs.Stands.{HasInHand, keeps_itself, own_in};
ghost use Rattle.strm_pair.specs.Runs.{Spent};
ghost use Rattle.strm_pair.specs.Standing.{IsLdtermText, FillsTwo, pair_blocks};

use crate::images::made_queues::queue_of;
use strm_blocks::Blocks;
use strm_frame::{QueuePair, Tables};
use strm_image::{LdtermText, QueuesText};
use strm_ldterm::{Ldterm, Line, Stage};

// A line of these bytes.
fn line_of(bytes: &[u8]) -> Line
    requires { length bytes.now ≤ LINE_MAX }
    ensures { result ≡ bytes.now }
{
    let mut line = Line::new();
    for at in 0..bytes.len() {
        line.push(bytes[at]);
    }
    line
}

/// Makes the queues of the module of a text, on two lists where nothing stands.
pub(crate) fn pair_of<B: Blocks>(
    store: &mut B,
    first: usize,
    tables: Tables,
    text: &QueuesText<'_>,
) -> QueuePair
    requires first { first + 1 < LISTS }
    requires reads { list_at (B.value store.old) first ≡ [] }
    requires writes { list_at (B.value store.old) (first + 1) ≡ [] }
    requires room { HasRoom (B.value store.old) (pair_blocks text.now) }
    ensures state { pair_in (B.value store.new) result ≡ pair_now text.now }
    ensures ready { IsPairReady (B.value store.new) result }
    ensures owns { (k : ℕ) → queues_own (Some result) k ≡ once first k + once (first + 1) k }
    ensures fills { FillsTwo (B.value store.old) (B.value store.new) first }
    ensures spent { Spent (B.value store.old) (B.value store.new) (pair_blocks text.now) }
{
    let read = queue_of(store, first, tables.read, &text.read);
    let write = queue_of(store, first + 1, tables.write, &text.write);
    QueuePair { read, write }
}

/// Makes an `ldterm` of a text, between two turns.
pub(crate) fn ldterm_of(text: &LdtermText<'_>) -> Ldterm
    requires { IsLdtermText text.now }
    ensures state { (s : StoreValue) → own_in s result ≡ ldterm_now text.now }
    ensures held { (s : StoreValue) (queues : pairs.QueuePair) → HasInHand s result (Some queues) }
    ensures rests { (i : ℕ) → keeps_itself result i ≡ 0 }
{
    Ldterm {
        termios: text.termios,
        stopped: text.stopped,
        after_lnext: text.after_lnext,
        column: text.column as u16,
        line: line_of(text.line),
        in_work: None,
        gathered: None,
        echoing: false,
        stage: Stage::Between,
    }
}
