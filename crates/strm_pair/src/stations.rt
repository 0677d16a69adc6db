//! What stands on the streams of a pair, as delivery sees it: two heads, two drivers, and the modules between them (STREAMS
//! Programming Guide, "Put Procedures").

ghost use Rattle.std.specs.Prelude.{ℕ, ◌≡◌, ◌<◌, ◌≤◌, ◌&&◌, ◌==◌, true, false, if◌then◌else◌, Some};
ghost use Rattle.strm_types.specs.declared.limits.TheConstants.{MODULES};
ghost use Rattle.strm_types.specs.declared.names.Way.TheVariants as ways;
ghost use Rattle.strm_types.specs.declared.names.Way.TheVariants.{Up};
ghost use Rattle.strm_types.specs.Cells.{plain};
ghost use Rattle.strm_laws.specs.Earlier.{modules_on};
ghost use Rattle.strm_types.specs.Flushing.{is_flush};
ghost use Rattle.strm_types.specs.Names.{is_open};
ghost use Rattle.strm_laws.specs.Puts.{across_of, put_at_head, put_at_module, put_at_driver, passed_up, put_behind, put_in};
ghost use Rattle.strm_types.specs.Tables.{driver_own};
ghost use Rattle.strm_laws.specs.State.{stream};
ghost use Rattle.strm_blocks.specs.Blocks.{in_hand, token};
ghost use Rattle.strm_msg.specs.Messages.{IsChain};
ghost use Rattle.strm_queue.specs.Stored.{FreesNone};
ghost use Rattle.strm_frame.specs.Hands.{HasRoom, IsWide, MayTake};
ghost use Rattle.strm_frame.specs.Outboxes.{message_in, sent_of, spot_in};
ghost use Rattle.strm_types.specs.Reads.{is_there};
ghost use Rattle.strm_head.specs.Heads.{down_message, sent_down};
ghost use Rattle.strm_pty.specs.Does.{Makes, MadeOne};
ghost use Rattle.strm_types.specs.Costs.{head_takes, up_takes};
ghost use Rattle.strm_types.specs.ModuleQueues.{at_place};
ghost use Rattle.strm_laws.specs.Spares.{module_packs, spare};
ghost use Rattle.strm_laws.specs.SideCosts.{costs};
ghost use Rattle.strm_laws.specs.StackCosts.{module_takes, stands_of};
ghost use Rattle.strm_pair.specs.Effects.{MayPut};
ghost use Rattle.strm_pair.specs.PutBy.{PutBy, CameBy, StackTakes};
ghost use Rattle.strm_pair.specs.Staying.{KeepsBlocks};

use crate::service_calls::Made;
use crate::stacks::place_at;
use crate::streams::Streams;
use strm_blocks::{Blocks, InHand};
use strm_frame::{Acts, Outbox, Sent, Stations};
use strm_head::{Down, make_flush};
use strm_msg::booked_size;
use strm_own::OwnModule;
use strm_pty::{make, put};
use strm_types::{Across, Fates, MODULES, MsgKind, Place, Rule, Side, Spot, Way};

// Makes what a head sends down, in one block of each kind.
fn make_down<B: Blocks>(store: &mut B, down: Down) -> InHand
    requires { HasRoom (B.value store.old) 1 }
    ensures { MadeOne (B.value store.old) (B.value store.new) (token result) (down_message down).kind (down_message down).plain }
{
    match down {
        Down::Flush(asked) => make_flush(store, asked),
        Down::Nak(ioc) => make(store, MsgKind::Iocnak, &ioc.refused().bytes()),
    }
}

// Makes what a head sends down, if anything.
fn send_down<B: Blocks>(store: &mut B, here: Spot, down: Option<Down>) -> Outbox
    requires room { HasRoom (B.value store.old) (if is_there down then 1 else 0) }
    requires top { here.at ≡ 0 }
    ensures makes { Makes (B.value store.old) (B.value store.new) (if is_there down then 1 else 0) (sent_of result) (sent_down here down) }
    ensures blocks { FreesNone (B.value store.old) (B.value store.new) }
{
    let Some(down) = down else {
        return Outbox::none();
    };
    let message = make_down(store, down);
    Outbox::one(Sent {
        to: Spot {
            at: 1,
            way: Way::Down,
            ..here
        },
        message,
    })
}

// Whether a kind is M_FLUSH.
fn is_flush(kind: MsgKind) -> bool
    ensures { result ≡ is_flush kind }
{
    matches!(kind, MsgKind::Flush)
}

impl Streams {
    ghost use Rattle.strm_pair.specs.Enabling.{AreFewEnabled};
    ghost use Rattle.strm_pair.specs.Pairs.{state_in, end_at, with_end, AreBeside, kept_by};
    ghost use Rattle.strm_blocks.specs.Blocks.{StoreValue};

    // What the driver of a side is told of the other one.
    fn across(&self, side: Side) -> Across
        ensures { (s : StoreValue) → result ≡ across_of side (state_in s self.now) }
    {
        let other = side.other();
        Across {
            is_open: self.end(other).opened.is_open(),
            bottom: self.modules_on(other) as u8,
            ended: self.ends.master.opened.is_closed(),
        }
    }

    // A message that comes to the head of a side that isn't open, where nobody reads: its bytes go.
    fn lose<B: Blocks>(&self, store: &mut B, to: Spot, message: InHand, told: &mut Fates) -> Outbox
        requires may { MayPut (B.value store.old) self.now (token message) }
        requires closed { is_open (stream to.side (state_in (B.value store.old) self.now)).opened ≡ false }
        ensures { let s = B.value store.old in
            PutBy s (B.value store.new) self.now self.now (token message) 0 (sent_of result) told.old told.new
            (put_at_head to.side to (message_in s (token message)) (state_in s self.now)) }
    {
        store.audit();
        let bytes = booked_size(store, &message);
        told.tell(to.side.head().direction(), Rule::EndClosed, bytes);
        store.free(message);
        Outbox::none()
    }

    // A message that comes to the head of an open side. What is to go down comes back.
    fn come<B: Blocks>(
        &mut self,
        store: &mut B,
        to: Spot,
        message: InHand,
        told: &mut Fates,
    ) -> Option<Down>
        requires may { MayPut (B.value store.old) self.old (token message) }
        requires opened { is_open (stream to.side (state_in (B.value store.old) self.old)).opened ≡ true }
        requires enabled { AreFewEnabled (state_in (B.value store.old) self.old) }
        ensures { let s = B.value store.old in
            CameBy s (B.value store.new) self.old self.new (token message) (sent_down to result) told.old told.new
            (put_at_head to.side to (message_in s (token message)) (state_in s self.old)) }
    {
        store.audit();
        let came = self
            .ends
            .get_mut(to.side)
            .head
            .put(store, to, message, told);
        self.let_go(to.side, Way::Up, 0, came.lets_go);
        came.down
    }

    // A message that comes to the head of a side.
    fn put_head<B: Blocks>(
        &mut self,
        store: &mut B,
        to: Spot,
        message: InHand,
        told: &mut Fates,
    ) -> Outbox
        requires may { MayPut (B.value store.old) self.old (token message) }
        requires room { HasRoom (B.value store.old) (head_takes (message_in (B.value store.old) (token message))) }
        requires top { to.at ≡ 0 }
        requires enabled { AreFewEnabled (state_in (B.value store.old) self.old) }
        ensures does { let s = B.value store.old in let m = message_in s (token message) in
            PutBy s (B.value store.new) self.old self.new (token message) (head_takes m)
            (sent_of result) told.old told.new (put_at_head to.side to m (state_in s self.old)) }
        ensures blocks { KeepsBlocks (B.value store.old) (B.value store.new) self.old to (token message) }
    {
        if !self.end(to.side).opened.is_open() {
            return self.lose(store, to, message, told);
        }
        let down = self.come(store, to, message, told);
        send_down(store, to, down)
    }

    // The stack of a side takes a message, and nothing else of the streams changes.
    fn put_on_stack<B: Blocks, M: OwnModule>(
        &mut self,
        store: &mut B,
        to: Spot,
        message: InHand,
        told: &mut Fates,
    ) -> Acts
        requires may { MayPut (B.value store.old) self.old (token message) }
        requires room { let s = B.value store.old in let m = message_in s (token message) in
            HasRoom s (at_place (module_takes to m) 0 to.at (stream to.side (state_in s self.old)).modules) }
        requires inside { 0 < to.at }
        requires within { to.at ≤ modules_on to.side (state_in (B.value store.old) self.old) }
        requires wide { IsWide M.wide (B.value store.old) }
        ensures streams { self.new ≡ with_end to.side (record (end_at to.side self.old) { stack = (end_at to.side self.new).stack }) self.old }
        ensures takes { StackTakes M.does (B.value store.old) (B.value store.new) (end_at to.side self.old).stack (end_at to.side self.new).stack
            (token message) to result told.old told.new }
    {
        self.ends
            .get_mut(to.side)
            .stack
            .put::<M, B>(store, to, message, told)
    }

    // A message that comes to a module of a side's stream. What it says of its queues goes by how the stream was before, and what it made
    // is booked.
    fn put_module<B: Blocks, M: OwnModule>(
        &mut self,
        store: &mut B,
        to: Spot,
        message: InHand,
        told: &mut Fates,
    ) -> Outbox
        requires may { MayPut (B.value store.old) self.old (token message) }
        requires room { let s = B.value store.old in let m = message_in s (token message) in
            HasRoom s (at_place (module_takes to m) 0 to.at (stream to.side (state_in s self.old)).modules) }
        requires books { let s = B.value store.old in let m = message_in s (token message) in let st = state_in s self.old in
            at_place (module_packs to m) 0 to.at (stream to.side st).modules ≤ spare st }
        requires inside { 0 < to.at }
        requires within { (s : StoreValue) → to.at ≤ modules_on to.side (state_in s self.old) }
        requires wide { IsWide M.wide (B.value store.old) }
        requires enabled { AreFewEnabled (state_in (B.value store.old) self.old) }
        ensures does { let s = B.value store.old in let m = message_in s (token message) in let st = state_in s self.old in
            let ms = (stream to.side st).modules in
            PutBy s (B.value store.new) self.old self.new (token message) (at_place (module_takes to m) 0 to.at ms)
            (sent_of result) told.old told.new (put_at_module M.does plain to m st) }
        ensures blocks { KeepsBlocks (B.value store.old) (B.value store.new) self.old to (token message) }
    {
        store.audit();
        let at = to.at as usize;
        let place = place_at(&self.end(to.side).stack, at);
        let before = Made::of(told);
        let acts = self.put_on_stack::<B, M>(store, to, message, told);
        self.note(to.side, place, at, acts.notes.as_slice());
        self.book_made(before, told);
        acts.sent
    }

    // A message that comes to the driver of a side.
    #[inline(always)]
    fn put_driver<B: Blocks>(
        &mut self,
        store: &mut B,
        to: Spot,
        message: InHand,
        told: &mut Fates,
    ) -> Outbox
        requires may { MayPut (B.value store.old) self.old (token message) }
        requires room { HasRoom (B.value store.old) (driver_own to.way (message_in (B.value store.old) (token message))) }
        requires enabled { AreFewEnabled (state_in (B.value store.old) self.old) }
        ensures does { let s = B.value store.old in let m = message_in s (token message) in
            PutBy s (B.value store.new) self.old self.new (token message) (driver_own to.way m)
            (sent_of result) told.old told.new (put_at_driver to.side to m (state_in s self.old)) }
        ensures blocks { to.way ≡ ways.Down → KeepsBlocks (B.value store.old) (B.value store.new) self.old to (token message) }
    {
        store.audit();
        let across = self.across(to.side);
        let at = self.driver_place(to.side);
        let here = Spot { at: at as u8, ..to };
        let acts = put(
            store,
            &mut self.ends.get_mut(to.side).driver,
            across,
            here,
            message,
            told,
        );
        self.note(to.side, Some(Place::Driver), at, acts.notes.as_slice());
        acts.sent
    }

    // A message at a place where nothing stands goes on to the lowest module, and where there is none to the head.
    fn pass_up<B: Blocks>(&self, store: &B, to: Spot, message: InHand) -> Outbox
        requires beside { AreBeside (B.value store.now) self.now }
        requires chain { IsChain (in_hand (B.value store.now) (token message)) }
        ensures { (told : Fates) → let s = B.value store.now in
            PutBy s s self.now self.now (token message) 0 (sent_of result) told told
            (passed_up to (message_in s (token message)) (state_in s self.now)) }
    {
        let _ = store;
        let at = self.modules_on(to.side);
        Outbox::one(Sent {
            to: Spot { at: at as u8, ..to },
            message,
        })
    }

    // A message on its way up, behind the head: the driver's place takes what was sent across.
    fn put_up<B: Blocks>(
        &mut self,
        store: &mut B,
        to: Spot,
        message: InHand,
        told: &mut Fates,
    ) -> Outbox
        requires may { MayPut (B.value store.old) self.old (token message) }
        requires room { HasRoom (B.value store.old) (up_takes to (message_in (B.value store.old) (token message))) }
        requires up { to.way ≡ Up }
        requires enabled { AreFewEnabled (state_in (B.value store.old) self.old) }
        ensures does { let s = B.value store.old in let m = message_in s (token message) in
            PutBy s (B.value store.new) self.old self.new (token message) (up_takes to m)
            (sent_of result) told.old told.new (put_behind Up to m (state_in s self.old)) }
        ensures blocks { KeepsBlocks (B.value store.old) (B.value store.new) self.old to (token message) }
    {
        store.audit();
        if to.at as usize == MODULES + 1 && is_flush(store.kind(&message, 0)) {
            return self.put_driver(store, to, message, told);
        }
        self.pass_up(store, to, message)
    }

    // A message that is put at a spot.
    #[inline(always)]
    fn put<B: Blocks, M: OwnModule>(
        &mut self,
        store: &mut B,
        to: Spot,
        message: InHand,
        told: &mut Fates,
    ) -> Outbox
        requires may { MayPut (B.value store.old) self.old (token message) }
        requires room { let s = B.value store.old in let st = state_in s self.old in
            MayTake s (spare st) (costs (stands_of st) (spot_in s to (token message))).own }
        requires wide { IsWide M.wide (B.value store.old) }
        requires enabled { AreFewEnabled (state_in (B.value store.old) self.old) }
        ensures does { let s = B.value store.old in let m = message_in s (token message) in let st = state_in s self.old in
            PutBy s (B.value store.new) self.old self.new (token message) (costs (stands_of st) (spot_in s to (token message))).own
            (sent_of result) told.old told.new (put_in M.does plain to m st) }
        ensures blocks { KeepsBlocks (B.value store.old) (B.value store.new) self.old to (token message) }
    {
        if to.at == 0 {
            return self.put_head(store, to, message, told);
        }
        if to.at as usize <= self.modules_on(to.side) {
            return self.put_module::<B, M>(store, to, message, told);
        }
        match to.way {
            Way::Down => self.put_driver(store, to, message, told),
            Way::Up => self.put_up(store, to, message, told),
        }
    }
}

impl<B: Blocks, M: OwnModule> Stations<B, M> for Streams {
    ghost use Rattle.std.specs.Prelude.{ℕ};
    ghost use Rattle.strm_laws.specs.State.{State};
    ghost use Rattle.strm_pair.specs.Pairs.{state_in, kept_by};
    ghost use Rattle.strm_laws.proofs.PutsWithin.{puts-costed};
    ghost use Rattle.strm_pair.specs.StandWide.{StandOver, wide-frame};
    ghost use Rattle.strm_pair.specs.Staying.{ComesToStand, comes-on};

    ghost Plain = { State ℕ };

    ghost plain = { state_in };

    ghost IsHeld = { StandOver M.wide };

    ghost keeps = { kept_by };

    ghost puts = { put_in M.does plain };

    ghost costs = { λ s. costs (stands_of s) };

    ghost spare = { spare };

    ghost stays = { ComesToStand };

    #[inline(always)]
    fn put_at(&mut self, store: &mut B, to: Spot, message: InHand, told: &mut Fates) -> Outbox {
        store.audit();
        self.put::<B, M>(store, to, message, told)
    }

    ghost frame = { wide-frame M.wide };

    ghost costed = { puts-costed M.does plain };

    ghost stays_on = { λ to m p is. comes-on M.does to m p is };
}
