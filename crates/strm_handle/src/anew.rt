//! Calls and turns at a pair whose full journal begins anew, where that is chosen.

ghost use Rattle.std.specs.Prelude.{◌≡◌, ◌&&◌, IfOk, IsOk, MatchOption, Err, length};
ghost use Rattle.strm_types.specs.declared.entries.Entry.TheVariants.{Called, Turned};
ghost use Rattle.strm_types.specs.Events.{request};
ghost use Rattle.strm_types.specs.Journal.{answer_len, reply_in};
ghost use Rattle.strm_laws.proofs.NoOwn.{none as no_own};
ghost use Rattle.strm_laws.specs.Pair.{AddsEntry, Stops, call_refused, queue_refused};
ghost use Rattle.strm_handle.specs.Kept.{begun, is_full, refusal_in};

use strm_pair::Pair;
use strm_raw::RawStore;
use strm_types::{Answer, Caller, Content, Event, QueueName, Refusal, Turn};

// Whether the journal begins anew, as a call or a turn found it full.
fn begins<T>(told: &Result<T, Refusal>, anew: bool) -> bool
    ensures { result ≡ (is_full (refusal_in told.now) && anew) }
{
    matches!(told, Err(Refusal::JournalFull)) && anew
}

/// Makes a call, at the pair begun anew where its journal is to be and the call finds it full. Inlined, so that where the kind of the call is known
/// nothing asks for it.
#[inline(always)]
pub(crate) fn call_at(
    pair: &mut Pair<RawStore>,
    anew: bool,
    caller: Caller,
    event: &Event<&[u8]>,
    out: &mut Content,
) -> Result<Answer<u32>, Refusal>
    ensures refused { let asked = request event.now in let at = begun anew (call_refused no_own pair.old caller asked) pair.old in
        MatchOption (call_refused no_own at caller asked) (IsOk result) (λ r. (result ≡ Err r) × ((pair.new ≡ at) × (out.new ≡ out.old))) }
    ensures adds { let asked = request event.now in let at = begun anew (call_refused no_own pair.old caller asked) pair.old in
        IfOk result (λ answer. AddsEntry no_own at pair.new (Called caller asked (reply_in answer out.new.items))) }
    ensures filled { IfOk result (λ answer. answer_len answer ≡ length out.new.items) }
{
    let told = pair.call(caller, event, out);
    let again = begins(&told, anew);
    if again {
        pair.restart();
        return pair.call(caller, event, out);
    }
    told
}

/// Makes a turn, at the pair begun anew where its journal is to be and the turn finds it full.
pub(crate) fn turn_at(
    pair: &mut Pair<RawStore>,
    anew: bool,
    name: QueueName,
) -> Result<Turn, Refusal>
    ensures refused { let at = begun anew (queue_refused pair.old name) pair.old in
        MatchOption (queue_refused at name) (IsOk result) (λ r. (result ≡ Err r) × (pair.new ≡ at)) }
    ensures adds { let at = begun anew (queue_refused pair.old name) pair.old in
        IfOk result (λ turn. AddsEntry no_own at pair.new (Turned name turn)) }
    ensures stops { let at = begun anew (queue_refused pair.old name) pair.old in IfOk result (λ turn. Stops at pair.new name turn) }
{
    let told = pair.turn(name);
    let again = begins(&told, anew);
    if again {
        pair.restart();
        return pair.turn(name);
    }
    told
}
