//! Modules of a user's own, which are pushed on a side's stream beside those that are there (STREAMS Programming Guide, "Modules", "Put Procedures").

ghost use Rattle.std.specs.Prelude.{ℕ, ◌≡◌, ◌<◌, ◌≤◌, Bool, false, true, [], ◌∷◌, length, MatchOption};
ghost use Rattle.strm_types.specs.Cells.{plain};
ghost use Rattle.strm_types.specs.Budgets.{own_at};
ghost use Rattle.strm_types.specs.Deliver.{onward};
ghost use Rattle.strm_types.specs.Flush.{is_data_kind};
ghost use Rattle.strm_types.specs.Typing.{bare};
ghost use Rattle.strm_types.specs.Tables.{own_does};
ghost use Rattle.strm_types.specs.declared.rules.Fates.{Fates};
ghost use Rattle.strm_types.specs.declared.names.ModuleName.TheVariants.{Own as NamedOwn};
ghost use Rattle.strm_types.specs.declared.names.Way.TheVariants.{Up};
ghost use Rattle.strm_types.specs.Names.{have_queues};
ghost use Rattle.strm_types.specs.declared.limits.TheConstants.{MODULES, SETTINGS_MAX};
ghost use Rattle.strm_types.specs.Owns.{Own};
ghost use Rattle.strm_laws.specs.Behaviours.{fresh_own, passes_all};
ghost use Rattle.strm_laws.specs.Pushes.{is_known};
ghost use Rattle.strm_blocks.specs.Blocks.{StoreValue, token};
ghost use Rattle.strm_queue.specs.Stored.{IsReady, messages_on};
ghost use Rattle.strm_frame.specs.Hands.{IsWide};
ghost use Rattle.strm_frame.specs.Outboxes.{message_in};
ghost use Rattle.strm_pty.specs.Beside.{MayPass};
ghost use Rattle.strm_own.specs.OwnPuts.{OwnPuts};
ghost use Rattle.strm_own.specs.Stands.{BeginsOrdinary};

use arrayvec::ArrayVec;
use std::marker::Model;
use strm_blocks::{Blocks, InHand};
use strm_frame::{Outbox, Sent};
use strm_laws::Behaves;
use strm_pty::make;
use strm_queue::Queue;
use strm_types::{Fates, ModuleName, MsgKind, SETTINGS_MAX, Spot, Way};

/// A module of a user's own, as it stands on a stream: its number, by which it is pushed and found, and the bytes that it is set to, which are all
/// that it keeps (STREAMS Programming Guide, "Private Data"). An image keeps both. It has no line. Of a number from `OWN_QUEUED` on it has queues,
/// which are its stream's.
#[derive(Drop)]
pub struct Own {
    number: u8,
    settings: ArrayVec<u8, SETTINGS_MAX>,
}

impl Model for Own {
    ghost use Rattle.strm_types.specs.Owns as plain;

    ghost Value = { plain.Own };

    ghost view = { λ o. record { number = o.number; settings = o.settings.items } };
}

impl Own {
    /// One of a number that is set to some bytes, at most `SETTINGS_MAX`.
    pub fn new(number: u8, settings: &[u8]) -> Own
        requires { length settings.now ≤ SETTINGS_MAX }
        ensures { result ≡ record { number = number; settings = settings.now } }
    {
        let mut own = Own {
            number,
            settings: ArrayVec::new(),
        };
        own.set(settings);
        own
    }

    /// Its number.
    pub fn number(&self) -> u8
        ensures { result ≡ self.now.number }
    {
        self.number
    }

    /// What it is set to.
    pub fn settings(&self) -> &[u8]
        ensures settings { result.now ≡ self.now.settings }
        ensures few { length self.now.settings ≤ SETTINGS_MAX }
    {
        self.settings.as_slice()
    }

    /// Sets it to other bytes, at most `SETTINGS_MAX`.
    pub fn set(&mut self, settings: &[u8])
        requires { length settings.now ≤ SETTINGS_MAX }
        ensures { self.new ≡ record self.old { settings = settings.now } }
    {
        self.settings.clear();
        if self.settings.try_extend_from_slice(settings).is_err() {
            unreachable!()
        }
    }
}

/// What modules of a user's own do, all kinds of them, by their numbers.
///
/// A user says by [`Behaves`] what they do over any cells, with the laws of that: no cell is lost or doubled, and a put keeps within the table of
/// such modules. A put takes no more blocks than it frees: it hands the message on, with its bytes changed or not, answers an M_IOCTL, or frees what
/// it drops and tells the rule.
///
/// A block whose data block another message shares (dupb(9F)) is written anew: the message is freed, and another one taken with as many blocks. That
/// data block isn't free then, and so a module that does this says that it is `wide`. A pair with such modules stands over a store that has at
/// least as many data blocks as message blocks, where a data block is free wherever a message block is (`free_m-le-free_d` of
/// [strm_frame](../strm_frame/proofs/WidePools.antt)).
pub trait OwnModule: Behaves {
    /// Whether a put may take blocks anew for those that it frees.
    ghost wide: { Bool };

    /// Whether any of them have queues.
    ghost queued: { Bool };

    /// Whether any of them have queues, which those of the numbers from `OWN_QUEUED` on have. Where none has, a pair reserves the memory of the
    /// queues of one module for each side's stream, and else that of three.
    fn queued() -> bool
        ensures { result ≡ queued };

    /// One of a number, as it is pushed. `None` where there are none of the number (streamio(7I): I_PUSH).
    fn made(number: u8) -> Option<Own>
        ensures { MatchOption result (Self.does.knows number ≡ false)
            (λ x. (Self.does.knows number ≡ true) × (x ≡ fresh_own Self.does number)) };

    /// Puts a message in hand at one, on its way up or down, and says what is sent on: `put(9E)`. What it drops it tells by its rule. It may be
    /// called for any message and one of any number, and counts on no free block. What one of a number does of which there are none is
    /// [`Behaves`]' to say; [`pass_on`] hands the message on.
    fn put<B: Blocks>(
        own: &mut Own,
        store: &mut B,
        here: Spot,
        message: InHand,
        told: &mut Fates,
    ) -> Outbox
        requires may { MayPass (B.value store.old) (token message) here }
        requires wide { IsWide Self.wide (B.value store.old) }
        ensures { let s = B.value store.old in let m = message_in s (token message) in
            OwnPuts s (B.value store.new) own.new (token message) (own_at own_does here m) result told.old told.new
            (Self.does.puts plain here m own.old) };

    /// Whether a message in hand that comes to one with queues waits on the queue of its way, until a turn of that queue puts it at the module
    /// (putq(9F)). Only M_DATA and M_PROTO may wait, and on the way down M_IOCTL; of no other message is it asked.
    fn holds<B: Blocks>(own: &Own, store: &B, here: Spot, message: &InHand) -> bool
        requires { MayPass (B.value store.now) (token message.now) here }
        ensures { result ≡ Self.does.holds here (message_in (B.value store.now) (token message.now)) own.now };

    /// Whether the first message of a queue, which is that of a way, may go on where there is room ahead (srv(9E)). It is asked where a message
    /// stands there that isn't of high priority.
    fn goes<B: Blocks>(own: &Own, store: &B, way: Way, queue: &Queue) -> bool
        requires ready { IsReady (B.value store.now) queue.now }
        requires first { BeginsOrdinary (messages_on (B.value store.now) queue.now.list) }
        ensures { result ≡ Self.does.goes way (messages_on (B.value store.now) queue.now.list) own.now };

    /// Where there are some of a number, and these have queues, some have.
    ghost queues: { (n : ℕ) → Self.does.knows n ≡ true → have_queues (NamedOwn n) ≡ true → queued ≡ true };
}

/// Hands a message on, as a module does that leaves it as it is (STREAMS Programming Guide, "Put Procedures").
pub fn pass_on(here: Spot, message: InHand) -> Outbox
    requires inside { 0 < here.at }
    requires small { here.at ≤ MODULES }
    ensures { (s : StoreValue) (own : Own) (told : Fates) (most : ℕ) → MayPass s (token message) here
        → OwnPuts s s own (token message) most result told told (passes_all here (message_in s (token message)) own) }
{
    Outbox::one(Sent {
        to: here.toward(here.way),
        message,
    })
}

/// Answers a message without parts in its place (streamio(7I): I_STR): frees it, and sends one of another kind, which has at most 256 bytes, up to
/// who asked. A block of each kind is free for that, since the store has at least as many data blocks as message blocks.
pub fn reply<B: Blocks>(
    store: &mut B,
    here: Spot,
    kind: MsgKind,
    bytes: &[u8],
    message: InHand,
) -> Outbox
    requires may { MayPass (B.value store.old) (token message) here }
    requires wide { IsWide true (B.value store.old) }
    requires kind { is_data_kind kind ≡ false }
    requires few { length bytes.now ≤ 256 }
    ensures { (own : Own) (told : Fates) (most : ℕ) → OwnPuts (B.value store.old) (B.value store.new) own (token message) most result told told
        (record { state = own; notes = []; sent = onward Up here (bare kind bytes.now) ∷ []; gone = [] }) }
{
    store.audit();
    store.free(message);
    let message = make(store, kind, bytes);
    Outbox::one(Sent {
        to: here.toward(Way::Up),
        message,
    })
}

/// Whether there are modules of a name: of those of a user's own there are some of the numbers that one can be made of.
pub fn is_known<M: OwnModule>(name: ModuleName) -> bool
    ensures { result ≡ is_known M.does name }
{
    match name {
        ModuleName::Own(number) => M::made(number).is_some(),
        ModuleName::Ldterm | ModuleName::Ptem | ModuleName::Pckt => true,
    }
}

/// No module of a user's own: there is none.
#[derive(Drop)]
pub enum NoModule {}

impl Behaves for NoModule {
    ghost use Rattle.strm_laws.proofs.NoOwn.{none};

    ghost does = { none };
}

impl OwnModule for NoModule {
    ghost wide = { false };

    ghost queued = { false };

    ghost queues = { λ n known has. Prim.cc };

    fn queued() -> bool {
        false
    }

    fn made(_number: u8) -> Option<Own> {
        None
    }

    fn put<B: Blocks>(
        _own: &mut Own,
        _store: &mut B,
        here: Spot,
        message: InHand,
        _told: &mut Fates,
    ) -> Outbox {
        pass_on(here, message)
    }

    fn holds<B: Blocks>(_own: &Own, _store: &B, _here: Spot, _message: &InHand) -> bool {
        false
    }

    fn goes<B: Blocks>(_own: &Own, _store: &B, _way: Way, _queue: &Queue) -> bool {
        true
    }
}
