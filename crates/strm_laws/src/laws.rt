//! What follows from the definitions of `specs/`, in the words of the manual pages. Each law is the contract of a function
//! that does nothing. A law over all kinds of cells holds of bytes and of bytes with their origin alike.

ghost use Rattle.std.specs.Prelude.{◌≡◌, ℕ, ◌+◌, ◌≤◌, ◌<◌, ◌==◌, List, [], ◌∷◌, ◌++◌, length, Some, if◌then◌else◌, Bool};
ghost use Rattle.std.specs.List.{AllByRecursion};
ghost use Rattle.strm_types.specs.declared.names.Dir.{Dir};
ghost use Rattle.strm_laws.specs.Within.{AreWithin};
ghost use Rattle.strm_types.specs.Message.{Message, rank_of, weight_of, map_message};
ghost use Rattle.strm_types.specs.Queue.{lane, lanes_down, IsOrdered, put, put_back, put_all, take_first, count_of, bytes_of, weight, map_messages};
ghost use Rattle.strm_types.specs.declared.answers.Answer.{Answer};
ghost use Rattle.strm_types.specs.declared.answers.Turn.{Turn};
ghost use Rattle.strm_types.specs.declared.entries.Entry.TheVariants.{Called};
ghost use Rattle.strm_types.specs.declared.events.Caller.{Caller};
ghost use Rattle.strm_types.specs.declared.limits.TheConstants.{CONTENT_MAX};
ghost use Rattle.strm_types.specs.declared.names.QueueName.{QueueName};
ghost use Rattle.strm_laws.specs.State.{State, map_state, opening};
ghost use Rattle.strm_laws.specs.Kept.{AreIdle, MayTest, NothingUnread, state_weight, came, gone, count_came};
ghost use Rattle.strm_types.specs.Cells.{Cells, AreCells, plain};
ghost use Rattle.strm_types.specs.Events.{Request, Reply, map_event, map_answer, payload_of, content_of};
ghost use Rattle.strm_laws.specs.Calls.{called, map_outcome};
ghost use Rattle.strm_laws.specs.Puts.{SameButMade};
ghost use Rattle.strm_laws.specs.TurnOutcomes.{map_turn_outcome};
ghost use Rattle.strm_laws.specs.Turns.{turned};
ghost use Rattle.strm_types.specs.declared.spots.Spot.{Spot};
ghost use Rattle.strm_types.specs.Deliver.{Parcel, Took, carried};
ghost use Rattle.strm_types.specs.Budgets.{Costed, Costs, beyond, budget};
ghost use Rattle.strm_types.specs.Shapes.{At, at_of};
ghost use Rattle.strm_laws.specs.Places.{PutKeeps, KeepsFrom, weight_gone, weight_made};
ghost use Rattle.strm_types.specs.Origins.{PutsAgree, CarriesAgree};
ghost use Rattle.strm_types.specs.Journal.{PlainEntry, content_max, event_len, answer_len, request_in, reply_in, entry_in};
ghost use Rattle.strm_laws.specs.Step.{Step, replay};

use crate::behaviours::Behaves;

/// putq(9F): in an ordered queue the lane of the message's rank has it at its end, no other lane changes, and the queue
/// stays in order.
pub fn put_joins_its_lane<C>()
    ensures lanes { (m : Message C) (q : List (Message C)) (r : ℕ) → IsOrdered q →
        lane r (put m q) ≡ (if rank_of m == r then lane r q ++ m ∷ [] else lane r q) }
    ensures order { (m : Message C) (q : List (Message C)) → IsOrdered q → IsOrdered (put m q) }
{}

/// putbq(9F): the lane of the message's rank has it in front, no other lane changes, and the queue stays in order.
pub fn put_back_leads_its_lane<C>()
    ensures lanes { (m : Message C) (q : List (Message C)) (r : ℕ) →
        lane r (put_back m q) ≡ (if rank_of m == r then m ∷ lane r q else lane r q) }
    ensures order { (m : Message C) (q : List (Message C)) → IsOrdered q → IsOrdered (put_back m q) }
{}

/// getq(9F): the message that is taken has the highest rank, it was the first of its lane, no other lane changes, and
/// the queue stays in order.
pub fn take_is_the_first<C>()
    ensures highest { (m : Message C) (q rest : List (Message C)) → IsOrdered q → take_first q ≡ Some (m, rest) →
        AllByRecursion (λ later. rank_of later ≤ rank_of m) rest }
    ensures lanes { (m : Message C) (q rest : List (Message C)) (r : ℕ) → take_first q ≡ Some (m, rest) →
        lane r q ≡ (if rank_of m == r then m ∷ lane r rest else lane r rest) }
    ensures order { (m : Message C) (q rest : List (Message C)) → IsOrdered q → take_first q ≡ Some (m, rest) →
        IsOrdered rest }
{}

/// An ordered queue is its lanes, joined from the highest rank down.
pub fn queue_is_its_lanes<C>()
    ensures { (top : ℕ) (q : List (Message C)) → IsOrdered q → AllByRecursion (λ m. rank_of m ≤ top) q →
        lanes_down top q ≡ q }
{}

/// Within a rank, what comes first is first: messages put one after the other stand in their lane in that order, behind
/// what stood there.
pub fn first_come_first<C>()
    ensures { (r : ℕ) (ms q : List (Message C)) → IsOrdered q → lane r (put_all ms q) ≡ lane r q ++ lane r ms }
{}

/// Band 0 counts the bytes of high priority and of band 0, and each other band the bytes of its own lane.
pub fn count_is_that_of_its_lanes<C>()
    ensures zero { (q : List (Message C)) → AllByRecursion (λ m. m.band < 256) q →
        count_of 0 q ≡ bytes_of (lane 256 q) + bytes_of (lane 0 q) }
    ensures others { (band : ℕ) (q : List (Message C)) → AllByRecursion (λ m. m.band < 256) q → 0 < band → band < 256 →
        count_of band q ≡ bytes_of (lane band q) }
{}

/// Of a call and its answer a journal stores the shape, and their bytes beside it. Both read back from where the bytes stand,
/// those of the call first, whatever stands behind; and the shapes tell how many bytes there are.
pub fn entries_read_back()
    ensures call { (asked : Request) (more : List ℕ) → request_in (map_event (λ bytes. length bytes) asked) (payload_of asked ++ more) ≡ asked }
    ensures call_size { (asked : Request) → event_len (map_event (λ bytes. length bytes) asked) ≡ length (payload_of asked) }
    ensures answer { (reply : Reply) (more : List ℕ) → reply_in (map_answer (λ bytes. length bytes) reply) (content_of reply ++ more) ≡ reply }
    ensures answer_size { (reply : Reply) → answer_len (map_answer (λ bytes. length bytes) reply) ≡ length (content_of reply) }
    ensures entry { (caller : Caller) (asked : Request) (told : Answer ℕ) (content : List ℕ) →
        entry_in (Called caller (map_event (λ bytes. length bytes) asked) told) (payload_of asked ++ content)
        ≡ Called caller asked (reply_in told content) }
{}

/// No answer has more bytes than the journal is asked to have room for, nor more than one buffer of answers takes. What a head
/// keeps for its caller is bounded, which is so in a new pair and behind each step (`heads_keep_little`).
pub fn answers_fit<C, K: Behaves>()
    ensures content { (cells : Cells C) (caller : Caller) (asked : Request) (s : State C) →
        AreWithin s → length (content_of (called K.does cells caller asked s).answer) ≤ content_max asked }
    ensures buffer { (asked : Request) → content_max asked ≤ CONTENT_MAX }
{}

/// A longer journal goes on from where the shorter one leads.
pub fn replay_goes_on<C, K: Behaves>()
    ensures { (cells : Cells C) (s : State C) (es fs : List PlainEntry) →
        replay K.does cells s (es ++ fs) ≡ replay K.does cells (replay K.does cells s es) fs }
{}

/// Forgetting the origins of bytes commutes with putq(9F), putbq(9F) and getq(9F).
pub fn forgetting_commutes<C, D>()
    ensures put { (f : C → D) (m : Message C) (q : List (Message C)) →
        map_messages f (put m q) ≡ put (map_message f m) (map_messages f q) }
    ensures put_back { (f : C → D) (m : Message C) (q : List (Message C)) →
        map_messages f (put_back m q) ≡ put_back (map_message f m) (map_messages f q) }
    ensures taken { (f : C → D) (m : Message C) (q rest : List (Message C)) → take_first q ≡ Some (m, rest) →
        take_first (map_messages f q) ≡ Some (map_message f m, map_messages f rest) }
{}

/// Whatever stands for bytes, a call (open(2), unlockpt(3C), write(2), read(2), putmsg(2), getmsg(2)) and a turn of a service
/// procedure (STREAMS Programming Guide, "Service Procedures") answer and do the same as on plain bytes, and let the same
/// bytes go by the same rules on the way; and so do all entries of a journal.
pub fn steps_forget_origins<C, K: Behaves>()
    ensures call { (cells : Cells C) (caller : Caller) (asked : Request) (s : State C) → AreCells cells →
        called K.does plain caller asked (map_state cells.byte s) ≡ map_outcome cells.byte (called K.does cells caller asked s) }
    ensures turn { (cells : Cells C) (name : QueueName) (turn : Turn) (s : State C) → AreCells cells →
        turned K.does plain name turn (map_state cells.byte s) ≡ map_turn_outcome cells.byte (turned K.does cells name turn s) }
    ensures replay { (cells : Cells C) (s : State C) (es : List PlainEntry) → AreCells cells →
        replay K.does plain (map_state cells.byte s) es ≡ map_state cells.byte (replay K.does cells s es) }
{}

/// Nothing is lost, and nothing is made but what is told: whatever test on bytes is chosen, as 'is this very byte', what stands
/// on a pair's queues behind a call or a turn, and what has gone by a rule, as what a read(2) or getmsg(2) gave, is what stood
/// there before, what a write(2) took or a putmsg(2) sent, and what was made on the way, as an echo is. A head that is opened is as new, so this wants that a side that isn't open has nothing for its
/// readers; and a module that is popped goes with what it has on its queues and in its line, so this wants that between two turns
/// it has nothing of a turn under way. Both are so in a new pair and behind each step. A turn of a module's queue may map a byte to another
/// one, as ldterm's does under ICRNL, and so may modules of a user's own, so there the test says the same of the two. On a queue a put adds what
/// the message has, and a take takes it away.
pub fn bytes_are_kept<C, K: Behaves>()
    ensures step { (cells : Cells C) (p : Dir → C → Bool) (old new : State C) (entry : PlainEntry) → MayTest K.does cells p entry →
        NothingUnread old → AreIdle old → Step K.does cells old entry new →
        state_weight p new + weight_gone p (gone K.does cells old entry)
        ≡ state_weight p old + (count_came K.does cells p old entry + weight_made p (gone K.does cells old entry)) }
    ensures unread { (cells : Cells C) (old new : State C) (entry : PlainEntry) → NothingUnread old →
        Step K.does cells old entry new → NothingUnread new }
    ensures idle { (cells : Cells C) (old new : State C) (entry : PlainEntry) → AreIdle old → Step K.does cells old entry new → AreIdle new }
    ensures opening { (s : State C) → s ≡ opening → NothingUnread s × AreIdle s }
    ensures put { (p : C → Bool) (m : Message C) (q : List (Message C)) →
        weight p (put m q) ≡ weight_of p m + weight p q }
    ensures put_back { (p : C → Bool) (m : Message C) (q : List (Message C)) →
        weight p (put_back m q) ≡ weight_of p m + weight p q }
    ensures taken { (p : C → Bool) (m : Message C) (q rest : List (Message C)) → take_first q ≡ Some (m, rest) →
        weight p q ≡ weight_of p m + weight p rest }
{}

/// No turn opens or closes a side, unlocks the slave, numbers an ioctl or books a byte as written.
pub fn turns_leave_the_ends<C, K: Behaves>()
    ensures { (cells : Cells C) (name : QueueName) (turn : Turn) (s : State C) → SameButMade s (turned K.does cells name turn s).state }
{}

/// Where no put loses a cell, or makes one that it doesn't tell, and puts send on no more than tables say, no delivery does that has a
/// budget by these: of any cells, those are held or have gone by a rule that were held before, came with the message, or were made
/// on the way.
pub fn delivery_keeps_cells<C, S>()
    ensures { (p : Dir → C → Bool) (weigh : S → ℕ) (costs : S → At → Costs) (put : Spot → Message C → S → Took C S) →
        PutKeeps p weigh put → Costed costs put → (hops : ℕ) (q : Parcel C) (s : S) → budget (costs s) hops (at_of q) < beyond →
        KeepsFrom p weigh (carried put hops) q s }
{}

/// Where puts do the same to cells and to what these are mapped to, as where their origins are forgotten, deliveries do.
pub fn delivery_forgets<C, D, S, T>()
    ensures { (f : C → D) (g : S → T) (put : Spot → Message C → S → Took C S) (put' : Spot → Message D → T → Took D T) →
        PutsAgree f g put put' → (hops : ℕ) → CarriesAgree f g (carried put hops) (carried put' hops) }
{}
