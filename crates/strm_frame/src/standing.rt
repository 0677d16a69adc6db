//! A module where it stands on a stream, with the queues that the stream gives it, where it has queues (STREAMS Programming Guide,
//! "Modules"). What is asked of its queues, and done with them, is said here once for all modules.

ghost use Rattle.std.specs.Prelude.{ℕ, ◌≡◌, ◌<◌, ◌≤◌, true, List, length, IfSome};
ghost use Rattle.strm_types.specs.declared.limits.TheConstants.{MODULES};
ghost use Rattle.strm_types.specs.declared.names.Way.TheVariants.{Up, Down};
ghost use Rattle.strm_types.specs.Budgets.{own_at};
ghost use Rattle.strm_types.specs.Deliver.{tallied};
ghost use Rattle.strm_types.specs.ModuleQueues.{full_at, waits};
ghost use Rattle.strm_types.specs.Queue.{first_size, bytes_of, count_of};
ghost use Rattle.strm_types.specs.Refused.{has_no_data};
ghost use Rattle.strm_types.specs.Service.{cleared, end_relieves, has_more, line_gone, turn_ended};
ghost use Rattle.strm_types.specs.Standings.{of_part, has_queues, messages_at, queue_changed};
ghost use Rattle.strm_blocks.specs.Blocks.{StoreValue, in_hand, token};
ghost use Rattle.strm_msg.specs.Messages.{IsChain};
ghost use Rattle.strm_frame.specs.Does.{Changes, Clears, ClearsQueue, EndsTurn, Puts, Serves};
ghost use Rattle.strm_frame.specs.Hands.{AreIn, CanPut, HasRoom, IsWide};
ghost use Rattle.strm_frame.specs.Outboxes.{message_in};
ghost use Rattle.strm_frame.specs.Serves.{stop_of};
ghost use Rattle.strm_frame.specs.Standings.{Fits, IsPairReady, keeps_of, owns, standing_in};

use crate::modules::{Acts, LetGo, Module, Procedures};
use crate::notes::rooms;
use crate::queue_pair::{QueuePair, direction_at};
use crate::queues::Emptied;
use crate::service::{Served, TurnEnd};
use strm_blocks::{Blocks, InHand};
use strm_queue::{lengths, standing};
use strm_types::{Asks, Band, Fates, Rule, Side, Spot, Way};

/// A module and its queues.
#[derive(Drop)]
pub struct Standing<M> {
    pub module: M,
    pub queues: Option<QueuePair>,
}

impl<M: Module + Default> Default for Standing<M> {
    ghost use Rattle.std.specs.Prelude.{◌≡◌, None};

    ghost is_default = { λ x. M.is_default x.module × (x.queues ≡ None) };

    /// What stands in the unused places of an array.
    fn default() -> Standing<M> {
        Standing {
            module: M::default(),
            queues: None,
        }
    }
}

// The cells of an unfinished line go by a rule. They came up; where there are none, nothing is told.
fn tell_line(bytes: usize, side: Side, rule: Rule, told: &mut Fates)
    ensures { (line : List ℕ) → length line ≡ bytes → told.new ≡ tallied (line_gone side rule line) told.old }
{
    if bytes > 0 {
        told.tell(direction_at(Way::Up, side), rule, bytes);
    }
}

// Lets all go that stands on the queue of a way, where there are queues.
fn clear_way<B: Blocks>(
    queues: &mut Option<QueuePair>,
    store: &mut B,
    seeking: Option<u32>,
    side: Side,
    way: Way,
    rule: Rule,
    told: &mut Fates,
) -> Emptied
    requires ready { IfSome queues.old (IsPairReady (B.value store.old)) }
    ensures { ClearsQueue side way rule (B.value store.old) (B.value store.new) queues.old queues.new seeking result told.old told.new }
{
    match queues {
        Some(pair) => pair.clear(store, seeking, side, way, rule, told),
        None => Emptied {
            room: false,
            met: false,
        },
    }
}

impl<M: Module> Standing<M> {
    /// Whether it has queues, each with a service procedure.
    pub fn has_queues(&self) -> bool
        ensures { (s : StoreValue) → result ≡ has_queues (standing_in M.plain s self.now) }
    {
        self.queues.is_some()
    }

    /// Whether a band of its queue of a way is full. Without queues it isn't.
    pub fn is_full<B: Blocks>(&self, store: &B, way: Way, band: Band) -> bool
        requires held { Fits M.IsHeld (B.value store.now) self.now }
        ensures { result ≡ full_at way band.0 (standing_in M.plain (B.value store.now) self.now) }
    {
        match &self.queues {
            Some(pair) => standing::is_full(store, pair.queue(way), band),
            None => false,
        }
    }

    /// How many bytes count in a band of its queue of a way; none without queues.
    pub fn count<B: Blocks>(&self, store: &B, way: Way, band: Band) -> usize
        requires held { Fits M.IsHeld (B.value store.now) self.now }
        ensures { result ≡ count_of band.0 (messages_at way (standing_in M.plain (B.value store.now) self.now)) }
    {
        match &self.queues {
            Some(pair) => standing::count(store, pair.queue(way), band),
            None => 0,
        }
    }

    /// How many messages stand on its queue of a way, and how many bytes they have; nothing without queues. It takes a step for
    /// each band above 0 where bytes stand, however many messages there are.
    pub fn sizes<B: Blocks>(&self, store: &B, way: Way) -> (usize, usize)
        requires held { Fits M.IsHeld (B.value store.now) self.now }
        ensures messages { result.0 ≡ length (messages_at way (standing_in M.plain (B.value store.now) self.now)) }
        ensures bytes { result.1 ≡ bytes_of (messages_at way (standing_in M.plain (B.value store.now) self.now)) }
    {
        match &self.queues {
            Some(pair) => standing::sizes(store, pair.queue(way)),
            None => (0, 0),
        }
    }

    /// How many bytes the first message on its queue of a way has; none where none stands there. It takes a step for each block of
    /// the message.
    pub fn first_size<B: Blocks>(&self, store: &B, way: Way) -> usize
        requires { Fits M.IsHeld (B.value store.now) self.now }
        ensures { result ≡ first_size (messages_at way (standing_in M.plain (B.value store.now) self.now)) }
    {
        match &self.queues {
            Some(pair) => lengths::first_size(store, pair.queue(way)),
            None => 0,
        }
    }

    /// Whether no M_DATA or M_PROTO stands on its read queue; none does without one.
    pub fn none_waits_up<B: Blocks>(&self, store: &B) -> bool
        ensures { result ≡ has_no_data (messages_at Up (standing_in M.plain (B.value store.now) self.now)) }
    {
        match &self.queues {
            Some(pair) => standing::has_no_data(store, &pair.read),
            None => true,
        }
    }

    /// Has a writer of a band wait at its queue of a way, until there is room again: want-write is set there.
    pub fn let_wait(&mut self, way: Way, band: Band)
        ensures { Changes (standing_in M.plain) (Fits M.IsHeld) owns (keeps_of M.keeps) self.old self.new (waits way band.0) }
    {
        match &mut self.queues {
            Some(pair) => pair.let_wait(way, band),
            None => {}
        }
    }

    /// Puts a message in hand at the module, on its way up or down: `put(9E)`.
    pub fn put<W, B: Blocks>(
        &mut self,
        store: &mut B,
        here: Spot,
        message: InHand,
        told: &mut Fates,
    ) -> Acts
    where
        M: Procedures<W>,
        requires held { Fits M.IsHeld (B.value store.old) self.old }
        requires can_put { CanPut (B.value store.old) (token message) (keeps_of M.keeps self.old) }
        requires chain { IsChain (in_hand (B.value store.old) (token message)) }
        requires room { let s = B.value store.old in
            HasRoom s (own_at (M.does (M.plain s self.old.module)) here (message_in s (token message))) }
        requires wide { IsWide M.wide (B.value store.old) }
        requires inside { 0 < here.at }
        requires small { here.at ≤ MODULES }
        ensures { let s = B.value store.old in let m = message_in s (token message) in let x = standing_in M.plain s self.old in
            Puts (standing_in M.plain) (Fits M.IsHeld) owns (keeps_of M.keeps) s (B.value store.new) self.old self.new (M.holds x.part)
            (token message) (own_at (M.does x.part) here m) result told.old told.new (M.puts M.by here m x) }
    {
        self.module
            .put(&mut self.queues, store, here, message, told)
    }

    /// What the first message of its queue of a way asks before it goes on; nothing stands there without queues.
    pub fn asks<W, B: Blocks>(&self, store: &B, way: Way) -> Asks
    where
        M: Procedures<W>,
        requires held { Fits M.IsHeld (B.value store.now) self.now }
        ensures asks { result ≡ M.asks M.by way (standing_in M.plain (B.value store.now) self.now) }
        ensures few { first_size (messages_at way (standing_in M.plain (B.value store.now) self.now)) ≤ 16777216 }
    {
        self.module.asks(&self.queues, store, way)
    }

    /// Calls the service procedure of its queue of a way: `srv(9E)`.
    pub fn serve<W, B: Blocks>(
        &mut self,
        store: &mut B,
        here: Spot,
        again: bool,
        told: &mut Fates,
    ) -> Served
    where
        M: Procedures<W>,
        requires held { Fits M.IsHeld (B.value store.old) self.old }
        requires turn { M.MayServe here.way again (M.plain (B.value store.old) self.old.module) }
        requires kept { AreIn (B.value store.old) (λ _. 0) (keeps_of M.keeps self.old) }
        requires room { HasRoom (B.value store.old) (M.turn_cost here again (M.plain (B.value store.old) self.old.module)) }
        requires wide { IsWide M.wide (B.value store.old) }
        requires inside { 0 < here.at }
        requires small { here.at ≤ MODULES }
        ensures { let s = B.value store.old in
            Serves (standing_in M.plain) (Fits M.IsHeld) owns (keeps_of M.keeps) (of_part (M.turn_cost here true)) (M.MayStop here.way again)
            s (B.value store.new) self.old self.new result told.old told.new
            (M.serves M.by here again (stop_of result) (standing_in M.plain s self.old)) }
    {
        self.module
            .serve(&mut self.queues, store, here, again, told)
    }

    /// Ends a turn of its queue of a way, when all is delivered that was sent: want-read is set where the queue is empty and
    /// cleared where it isn't. Where the turn took bytes, waiting writers are let go. A turn that treated nothing ends so
    /// too, as its queue is empty or its first message may not go on.
    pub fn end_turn<B: Blocks>(&mut self, store: &B, way: Way, took: bool) -> TurnEnd
        requires held { Fits M.IsHeld (B.value store.now) self.old }
        ensures { let s = B.value store.now in let x = standing_in M.plain s self.old in
            EndsTurn (standing_in M.plain) (Fits M.IsHeld) owns (keeps_of M.keeps) s self.old self.new result (end_relieves took way x)
            (has_more way x) (queue_changed way (turn_ended took) x) }
    {
        match &mut self.queues {
            Some(pair) => pair.end_turn(store, way, took),
            None => TurnEnd {
                room: false,
                more: false,
            },
        }
    }

    /// Lets all go that stands on its queues and in its line, before the module is taken off a side's stream: the messages of its read
    /// queue, then the unfinished line, then the messages of its write queue. The bytes go by a rule. It tells which queues before its
    /// own have room again, the read queue's first, and whether the M_IOCTL of a number stood on its write queue, where one is sought.
    /// The module keeps nothing in hand, and no block is taken. The cost is a step for each block on the queues.
    pub fn clear<B: Blocks>(
        &mut self,
        store: &mut B,
        side: Side,
        rule: Rule,
        seeking: Option<u32>,
        told: &mut Fates,
    ) -> LetGo
        requires held { Fits M.IsHeld (B.value store.old) self.old }
        requires rests { (i : ℕ) → keeps_of M.keeps self.old i ≡ 0 }
        ensures { let s = B.value store.old in let x = standing_in M.plain s self.old in
            Clears (standing_in M.plain) (Fits M.IsHeld) owns (keeps_of M.keeps) s (B.value store.new) self.old self.new seeking
            (messages_at Down x) result told.old told.new (cleared M.line_of M.without_line side rule x) }
    {
        let above = clear_way(&mut self.queues, store, None, side, Way::Up, rule, told);
        let bytes = self.module.clear_line();
        tell_line(bytes, side, rule, told);
        let below = clear_way(
            &mut self.queues,
            store,
            seeking,
            side,
            Way::Down,
            rule,
            told,
        );
        LetGo {
            notes: rooms(above.room, below.room),
            met: below.met,
        }
    }
}
