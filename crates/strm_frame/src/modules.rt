//! What may stand on a stream between its head and its driver.

ghost use Rattle.std.specs.Prelude.{ℕ, ◌≡◌, ◌<◌, ◌≤◌, length, Bool, true, false, List, [], Option};
ghost use Rattle.strm_types.specs.declared.names.ModuleName.{ModuleName};
ghost use Rattle.strm_types.specs.declared.names.Way.{Way};
ghost use Rattle.strm_types.specs.declared.spots.Spot.{Spot};
ghost use Rattle.strm_types.specs.declared.spots.Asks.{Asks};
ghost use Rattle.strm_types.specs.Message.{Message};
ghost use Rattle.strm_types.specs.Queue.{first_size};
ghost use Rattle.strm_types.specs.declared.keys.TheConstants.{LINE_MAX};
ghost use Rattle.strm_types.specs.declared.limits.TheConstants.{MODULES};
ghost use Rattle.strm_types.specs.Budgets.{Table, Within, emits_at, own_at};
ghost use Rattle.strm_types.specs.Deliver.{Acted};
ghost use Rattle.strm_types.specs.OwnStands.{OwnActs};
ghost use Rattle.strm_types.specs.Shapes.{shape_of};
ghost use Rattle.strm_types.specs.Service.{Serving};
ghost use Rattle.strm_types.specs.Standings.{Standing, messages_at, of_part};
ghost use Rattle.strm_blocks.specs.Blocks.{StoreValue, in_hand, token};
ghost use Rattle.strm_msg.specs.Messages.{IsChain};
ghost use Rattle.strm_frame.specs.declared.queue_pair.QueuePair.{QueuePair};
ghost use Rattle.strm_frame.specs.Outboxes.{message_in};
ghost use Rattle.strm_frame.specs.Does.{Puts, Serves};
ghost use Rattle.strm_frame.specs.Serves.{stop_of};
ghost use Rattle.strm_frame.specs.Standings.{Fits, keeps_of, lists_of, owns, queues_own, standing, standing_in};
ghost use Rattle.strm_frame.specs.Hands.{AreIn, CanPut, SameOwn, HasRoom, IsWide};

use crate::parcels::Outbox;
use crate::queue_pair::QueuePair;
use crate::service::Served;
use arrayvec::ArrayVec;
use strm_blocks::{Blocks, InHand};
use strm_types::{Asks, Fates, ModuleName, Note, Spot, Way};

/// What a put at a module does, in this order: its queues come onto the enabled list, or those before them do, and messages
/// are sent on.
#[derive(Drop)]
pub struct Acts {
    pub notes: ArrayVec<Note, 4>,
    pub sent: Outbox,
}

/// What comes of it that a module lets all go: which queues before its own have room again, and whether the M_IOCTL that is sought
/// stood on its write queue.
#[derive(Drop)]
pub struct LetGo {
    pub notes: ArrayVec<Note, 4>,
    pub met: bool,
}

impl LetGo {
    /// Nothing stood there.
    pub fn nothing() -> LetGo
        ensures notes { result.notes.items ≡ [] }
        ensures met { result.met ≡ false }
    {
        LetGo {
            notes: ArrayVec::new(),
            met: false,
        }
    }
}

/// A module: what it is set to, its unfinished line, and in a turn what it has in hand. Its queues are its stream's, which gives them to it at each
/// call; nothing else touches their lists (STREAMS Programming Guide, "Modules"; qinit(9S)).
pub trait Module: Drop {
    /// What it stands for by itself.
    ghost Plain: { Type 0 };

    /// By the store, which has its messages in hand.
    ghost plain: { StoreValue → Self → Plain };

    /// Its name.
    ghost name_of: { Plain → ModuleName };

    /// What it has in hand fits the store and its queues.
    ghost IsHeld: { StoreValue → Self → Option QueuePair → Type 0 };

    /// How often it keeps a message of a name in hand.
    ghost keeps: { Self → ℕ → ℕ };

    /// What a message does that is put here, by what is done at modules of a user's own, where it is one of these.
    ghost puts: { OwnActs ℕ → Spot → Message ℕ → Standing Plain ℕ → Acted ℕ (Standing Plain ℕ) };

    /// Its unfinished line of input, and the same module without it.
    ghost line_of: { Plain → List ℕ };

    ghost without_line: { Plain → Plain };

    /// What the first message of its queue of a way asks before it goes on, by the same.
    ghost asks: { OwnActs ℕ → Way → Standing Plain ℕ → Asks };

    /// What a call of its service procedure does, by the same: the first one of a turn (false), and one more in the same turn (true).
    /// Where it stops for want of blocks, `Some` says at how many bytes. With `None` it goes as far as it may.
    ghost serves: { OwnActs ℕ → Spot → Bool → Option ℕ → Standing Plain ℕ → Serving ℕ (Standing Plain ℕ) };

    /// Whether its service procedure may be called for its queue of a way: the first time in a turn (false), when nothing of a
    /// turn is under way there, or once more in it (true).
    ghost MayServe: { Way → Bool → Plain → Type 0 };

    /// Where a call may stop, the first one in a turn of its queue of a way (false) or one more in it (true): at so many bytes
    /// of the message.
    ghost MayStop: { Way → Bool → ℕ → Standing Plain ℕ → Type 0 };

    /// What a put does at most, by the way and the shape of what is put: how many blocks of each kind it takes, how often it makes
    /// bytes, and what it sends on.
    ghost does: { Plain → Table };

    /// Whether an M_DATA or M_PROTO that is put here waits, or goes on, in all its blocks.
    ghost holds: { Plain → Bool };

    /// How many blocks of each kind a call of its service procedure takes at most, the first one of a turn or one more. That
    /// depends on what is under way in the module.
    ghost turn_cost: { Spot → Bool → Plain → ℕ };

    /// Its name.
    fn name(&self) -> ModuleName
        ensures { (s : StoreValue) → result ≡ name_of (plain s self.now) };

    /// How many bytes stand in its unfinished line, at most 255.
    fn line_len(&self) -> usize
        ensures line { (s : StoreValue) → result ≡ length (line_of (plain s self.now)) }
        ensures few { result ≤ LINE_MAX };

    /// Lets its unfinished line go, before the module is taken off, and says how many bytes stood there.
    fn clear_line(&mut self) -> usize
        ensures gone { (s : StoreValue) → length (line_of (plain s self.old)) ≡ result }
        ensures line { (s : StoreValue) → plain s self.new ≡ without_line (plain s self.old) }
        ensures held { (s : StoreValue) (queues : Option QueuePair) → IsHeld s self.old queues → IsHeld s self.new queues }
        ensures keeps { (i : ℕ) → keeps self.new i ≡ keeps self.old i };

    /// It stands for the same, and fits, wherever its queues' lists are the same and what it keeps in hand is, whatever their flags.
    ghost frame: { (s t : StoreValue) (x : Self) (queues others : Option QueuePair) → lists_of others ≡ lists_of queues →
        SameOwn s t (queues_own queues) (keeps x) → IsHeld s x queues → (plain t x ≡ plain s x) × IsHeld t x others };

    /// Where it keeps nothing in hand, that holds whatever stands on the lists.
    ghost rested: { (s t : StoreValue) (x : Self) (queues others : Option QueuePair) → lists_of others ≡ lists_of queues →
        ((i : ℕ) → keeps x i ≡ 0) → IsHeld s x queues → (plain t x ≡ plain s x) × IsHeld t x others };

    /// Where a turn may begin, it keeps nothing in hand.
    ghost rests: { (s : StoreValue) (x : Self) (queues : Option QueuePair) (way : Way) (i : ℕ) → IsHeld s x queues → MayServe way false (plain s x) →
        keeps x i ≡ 0 };

    /// Where a turn of one of its queues may begin, one of the other may.
    ghost either_way: { (way way' : Way) (p : Plain) → MayServe way false p → MayServe way' false p };

    /// Where it may be called it may without its unfinished line.
    ghost line_stays: { (p : Plain) (way : Way) (again : Bool) → MayServe way again p →
        MayServe way again (without_line p) };
}

/// The put and the service procedure of a module: `put(9E)`, `srv(9E)`; `qinit(9S)`: qi_putp, qi_srvp. What is done at modules of a user's own `W`
/// says; that of most kinds is for `()`.
pub trait Procedures<W>: Module {
    /// What is done at modules of a user's own.
    ghost by: { OwnActs ℕ };

    /// Whether a put or a call of the service procedure may free blocks and take as many anew: then it counts on a store with as many data
    /// blocks as message blocks.
    ghost wide: { Bool };

    /// Puts a message in hand here, on its way up or down, and says what it does: `put(9E)`. Where it holds what it is given an
    /// M_DATA or M_PROTO frees no block.
    fn put<B: Blocks>(
        &mut self,
        queues: &mut Option<QueuePair>,
        store: &mut B,
        here: Spot,
        message: InHand,
        told: &mut Fates,
    ) -> Acts
        requires held { Fits Self.IsHeld (B.value store.old) (standing self.old queues.old) }
        requires can_put { CanPut (B.value store.old) (token message) (Self.keeps self.old) }
        requires chain { IsChain (in_hand (B.value store.old) (token message)) }
        requires room { let s = B.value store.old in
            HasRoom s (own_at (Self.does (Self.plain s self.old)) here (message_in s (token message))) }
        requires wide { IsWide Self.wide (B.value store.old) }
        requires inside { 0 < here.at }
        requires small { here.at ≤ MODULES }
        ensures { let s = B.value store.old in let m = message_in s (token message) in let x = standing self.old queues.old in
            let p = Self.plain s self.old in
            Puts (standing_in Self.plain) (Fits Self.IsHeld) owns (keeps_of Self.keeps) s (B.value store.new) x (standing self.new queues.new)
            (Self.holds p) (token message) (own_at (Self.does p) here m) result told.old told.new (Self.puts Self.by here m (standing_in Self.plain s x)) };

    /// What the first message of its queue of a way asks before it goes on. A message has no more bytes than all blocks of a
    /// store.
    fn asks<B: Blocks>(&self, queues: &Option<QueuePair>, store: &B, way: Way) -> Asks
        requires held { Fits Self.IsHeld (B.value store.now) (standing self.now queues.now) }
        ensures asks { result ≡ Self.asks Self.by way (standing_in Self.plain (B.value store.now) (standing self.now queues.now)) }
        ensures few { first_size (messages_at way (standing_in Self.plain (B.value store.now) (standing self.now queues.now))) ≤ 16777216 };

    /// Treats the first message of its queue of a way: `srv(9E)`. `again` is for one more call in the same turn, once all
    /// is delivered that the last one sent. It is called so only where the last call asked for that, and for the first time in a
    /// turn only where nothing of a turn is under way. It may stop within the message only where fewer than `STOP_BLOCKS` blocks of
    /// some kind are left.
    fn serve<B: Blocks>(
        &mut self,
        queues: &mut Option<QueuePair>,
        store: &mut B,
        here: Spot,
        again: bool,
        told: &mut Fates,
    ) -> Served
        requires held { Fits Self.IsHeld (B.value store.old) (standing self.old queues.old) }
        requires turn { Self.MayServe here.way again (Self.plain (B.value store.old) self.old) }
        requires kept { AreIn (B.value store.old) (λ _. 0) (Self.keeps self.old) }
        requires room { HasRoom (B.value store.old) (Self.turn_cost here again (Self.plain (B.value store.old) self.old)) }
        requires wide { IsWide Self.wide (B.value store.old) }
        requires inside { 0 < here.at }
        requires small { here.at ≤ MODULES }
        ensures { let s = B.value store.old in let x = standing self.old queues.old in
            Serves (standing_in Self.plain) (Fits Self.IsHeld) owns (keeps_of Self.keeps) (of_part (Self.turn_cost here true))
            (Self.MayStop here.way again) s (B.value store.new)
            x (standing self.new queues.new) result told.old told.new (Self.serves Self.by here again (stop_of result) (standing_in Self.plain s x)) };

    /// What a put sends on is within its table.
    ghost within: { (here : Spot) (m : Message ℕ) (x : Standing Self.Plain ℕ) →
        Within (Self.puts Self.by here m x).sent (emits_at here (Self.does x.part here.way (shape_of m))) };

    /// It may be served as before behind a put, as where a message comes back to it between two calls.
    ghost put_stays: { (here : Spot) (m : Message ℕ) (x : Standing Self.Plain ℕ) (way : Way) (again : Bool) →
        Self.MayServe way again x.part → Self.MayServe way again (Self.puts Self.by here m x).state.part };

    /// Behind a call it may be called once more where it asks for that, and else a turn may begin.
    ghost turn_goes: { (here : Spot) (again : Bool) (stop : Option ℕ) (x : Standing Self.Plain ℕ) → Self.MayServe here.way again x.part →
        let t = Self.serves Self.by here again stop x in Self.MayServe here.way t.again t.acted.state.part };
}
