//! What follows from the definitions of reads and gets at a stream head, and of the signals and the ioctl that it keeps, in the
//! words of read(2), getmsg(2) and streamio(7I). Each law is the contract of a function that does nothing, and holds of bytes and of bytes with their origin alike.

ghost use Rattle.std.specs.Prelude.{◌≡◌, true, ℕ, ◌+◌, ◌≤◌, ◌⊎◌, List, [], None, Some, length, count_by, Bool};
ghost use Rattle.std.specs.List.{AllByRecursion};
ghost use Rattle.strm_types.specs.declared.modes.ReadMode.{ReadMode};
ghost use Rattle.strm_types.specs.declared.modes.ReadMode.TheVariants.{ByteStream, MessageKeep, MessageDiscard};
ghost use Rattle.strm_types.specs.declared.modes.ControlMode.{ControlMode};
ghost use Rattle.strm_types.specs.declared.modes.ControlMode.TheVariants.{Refuse, Data, Discard};
ghost use Rattle.strm_types.specs.declared.modes.Wanted.{Wanted};
ghost use Rattle.strm_types.specs.declared.refusals.Refusal.{Refusal};
ghost use Rattle.strm_types.specs.declared.refusals.Refusal.TheVariants.{Einval, Eagain};
ghost use Rattle.strm_types.specs.declared.answers.Answer.TheVariants.{Pending};
ghost use Rattle.strm_types.specs.declared.events.Caller.{Caller};
ghost use Rattle.strm_types.specs.declared.events.Event.TheVariants.{Ioctl, IoctlResult};
ghost use Rattle.strm_types.specs.declared.limits.TheConstants.{SIGNAL_LAST};
ghost use Rattle.strm_types.specs.declared.spots.Spot.{Spot};
ghost use Rattle.strm_laws.specs.Calls.{called};
ghost use Rattle.strm_types.specs.Cells.{Cells};
ghost use Rattle.strm_types.specs.Heads.{head_put, Head};
ghost use Rattle.strm_types.specs.Journal.{PlainEntry};
ghost use Rattle.strm_laws.specs.Refusals.{refused_by_state};
ghost use Rattle.strm_types.specs.Signals.{AreSignals};
ghost use Rattle.strm_laws.specs.State.{State, opening};
ghost use Rattle.strm_laws.specs.Step.{Step};
ghost use Rattle.strm_laws.specs.Within.{AreWithin, IsWithin};
ghost use Rattle.strm_types.specs.Message.{Message, part};
ghost use Rattle.strm_types.specs.Queue.{weight, map_messages};
ghost use Rattle.strm_types.specs.Head.{head_read};
ghost use Rattle.strm_types.specs.Reads.{head_draw, read_refusal, takes_none, stopped, map_drawn, OfOneMessage, IsData};
ghost use Rattle.strm_types.specs.Gets.{head_get, get_refusal, got_none, map_got};

use crate::behaviours::Behaves;

/// Nothing is lost or made: whatever test on bytes is chosen, those that a read gives, discards and drops, and those that stay,
/// are those that stood there. A read gives no more than was asked for. Bytes are discarded under RMSGD alone, and dropped
/// under RPROTDIS alone.
pub fn reads_keep_cells<C>()
    ensures kept { (p : C → Bool) (read : ReadMode) (control : ControlMode) (n : ℕ) (q : List (Message C)) → let d = head_draw read control n q in
        count_by p d.given + (count_by p d.discarded + (count_by p d.dropped + weight p d.left)) ≡ weight p q }
    ensures most { (read : ReadMode) (control : ControlMode) (n : ℕ) (q : List (Message C)) → length (head_draw read control n q).given ≤ n }
    ensures stream { (control : ControlMode) (n : ℕ) (q : List (Message C)) → (head_draw ByteStream control n q).discarded ≡ [] }
    ensures keep { (control : ControlMode) (n : ℕ) (q : List (Message C)) → (head_draw MessageKeep control n q).discarded ≡ [] }
    ensures refuse { (read : ReadMode) (n : ℕ) (q : List (Message C)) → (head_draw read Refuse n q).dropped ≡ [] }
    ensures data { (read : ReadMode) (n : ℕ) (q : List (Message C)) → (head_draw read Data n q).dropped ≡ [] }
{}

/// A read that is refused takes nothing: EBADMSG comes before bytes are taken. Nor does one that has nothing to take.
pub fn refused_reads_take_nothing<C>()
    ensures refused { (read : ReadMode) (control : ControlMode) (at_end : Bool) (n : ℕ) (q : List (Message C)) (refusal : Refusal) →
        read_refusal control at_end n q ≡ Some refusal → head_draw read control n q ≡ stopped q }
    ensures none { (read : ReadMode) (control : ControlMode) (n : ℕ) (q : List (Message C)) → takes_none control n q ≡ true → head_draw read control n q ≡ stopped q }
{}

/// In the message modes a read gives the first bytes of one message, if any.
pub fn message_reads_give_one<C>()
    ensures keep { (control : ControlMode) (n : ℕ) (q : List (Message C)) →
        ((head_draw MessageKeep control n q).given ≡ []) ⊎ OfOneMessage control n q (head_draw MessageKeep control n q).given }
    ensures discard { (control : ControlMode) (n : ℕ) (q : List (Message C)) →
        ((head_draw MessageDiscard control n q).given ≡ []) ⊎ OfOneMessage control n q (head_draw MessageDiscard control n q).given }
{}

/// In the modes of a new head, a read of M_DATA messages is `head_read`.
pub fn stream_read_is_head_read<C>()
    ensures given { (n : ℕ) (q : List (Message C)) → AllByRecursion IsData q → (head_draw ByteStream Refuse n q).given ≡ (head_read n q).given }
    ensures left { (n : ℕ) (q : List (Message C)) → AllByRecursion IsData q → (head_draw ByteStream Refuse n q).left ≡ (head_read n q).left }
{}

/// Forgetting the origins of bytes commutes with reads and gets, and refuses them alike.
pub fn head_forgets_origins<C, D>()
    ensures read { (f : C → D) (read : ReadMode) (control : ControlMode) (n : ℕ) (q : List (Message C)) →
        map_drawn f (head_draw read control n q) ≡ head_draw read control n (map_messages f q) }
    ensures read_refusal { (f : C → D) (control : ControlMode) (at_end : Bool) (n : ℕ) (q : List (Message C)) →
        read_refusal control at_end n (map_messages f q) ≡ read_refusal control at_end n q }
    ensures get { (f : C → D) (wanted : Wanted) (cmax dmax : ℕ) (q : List (Message C)) →
        map_got f (head_get wanted cmax dmax q) ≡ head_get wanted cmax dmax (map_messages f q) }
    ensures get_refusal { (f : C → D) (wanted : Wanted) (at_end : Bool) (q : List (Message C)) →
        get_refusal wanted at_end (map_messages f q) ≡ get_refusal wanted at_end q }
{}

/// What a get gives, and what stays, is what stood there; it gives no more than was asked for; and one that is refused takes
/// nothing.
pub fn gets_keep_cells<C>()
    ensures kept { (p : C → Bool) (wanted : Wanted) (cmax dmax : ℕ) (q : List (Message C)) → let g = head_get wanted cmax dmax q in
        count_by p (part g.control) + (count_by p (part g.body) + weight p g.left) ≡ weight p q }
    ensures most_control { (wanted : Wanted) (cmax dmax : ℕ) (q : List (Message C)) → length (part (head_get wanted cmax dmax q).control) ≤ cmax }
    ensures most_data { (wanted : Wanted) (cmax dmax : ℕ) (q : List (Message C)) → length (part (head_get wanted cmax dmax q).body) ≤ dmax }
    ensures refused { (wanted : Wanted) (at_end : Bool) (cmax dmax : ℕ) (q : List (Message C)) (refusal : Refusal) →
        get_refusal wanted at_end q ≡ Some refusal → head_get wanted cmax dmax q ≡ got_none q }
{}

/// What a stream head keeps for its caller is bounded: each signal waits once, so that no more than 31 wait, and the answer of
/// an ioctl has at most 256 bytes. It is so in a new pair, behind each put at a head, and behind each step of a pair.
pub fn heads_keep_little<C, K: Behaves>()
    ensures opening { (s : State C) → s ≡ opening → AreWithin s }
    ensures put { (here : Spot) (m : Message C) (h : Head C) → IsWithin h → IsWithin (head_put here m h).state }
    ensures step { (cells : Cells C) (old new : State C) (entry : PlainEntry) → AreWithin old →
        Step K.does cells old entry new → AreWithin new }
    ensures signals { (ns : List ℕ) → AreSignals ns → length ns ≤ SIGNAL_LAST }
{}

/// The answer of an ioctl is given once. Behind a call for it that isn't refused, a call for the answer of any number is EINVAL,
/// and another ioctl may begin. An ioctl that tells a number waits: a call for the answer of that number is EAGAIN. Any other one
/// has given its answer itself.
pub fn ioctls_are_answered_once<C, K: Behaves>()
    ensures once { (cells : Cells C) (caller : Caller) (number asked : ℕ) (s : State C) →
        refused_by_state K.does s caller (IoctlResult number) ≡ None →
        refused_by_state K.does (called K.does cells caller (IoctlResult number) s).state caller (IoctlResult asked) ≡ Some Einval }
    ensures next { (cells : Cells C) (caller : Caller) (number command : ℕ) (body : List ℕ) (s : State C) →
        refused_by_state K.does s caller (IoctlResult number) ≡ None →
        refused_by_state K.does (called K.does cells caller (IoctlResult number) s).state caller (Ioctl command body) ≡ None }
    ensures waits { (cells : Cells C) (caller : Caller) (command number : ℕ) (body : List ℕ) (s : State C) →
        (called K.does cells caller (Ioctl command body) s).answer ≡ Pending number →
        refused_by_state K.does (called K.does cells caller (Ioctl command body) s).state caller (IoctlResult number) ≡ Some Eagain }
    ensures at_once { (cells : Cells C) (caller : Caller) (command asked : ℕ) (body : List ℕ) (s : State C) →
        (refused_by_state K.does (called K.does cells caller (Ioctl command body) s).state caller (IoctlResult asked) ≡ Some Einval)
        ⊎ ((number : ℕ) × ((called K.does cells caller (Ioctl command body) s).answer ≡ Pending number)) }
{}
