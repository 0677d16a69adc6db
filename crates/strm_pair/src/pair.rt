//! The pair: calls, turns, and the journal of what was carried out.

ghost use Rattle.std.specs.Prelude.{◌≡◌, ◌≤◌, ◌<◌, ◌+◌, true, if◌then◌else◌, sum_by, [], length, replicate, MatchResult, MatchOption, IsOk, Err, IfOk, is_some, option_copied, slice_get};
ghost use Rattle.strm_types.specs.Events.{request, map_answer};
ghost use Rattle.strm_types.specs.Cells.{Origin, plain, tagged};
ghost use Rattle.strm_types.specs.declared.entries.Entry.TheVariants.{Called, Turned};
ghost use Rattle.strm_laws.specs.Earlier.{modules_on};
ghost use Rattle.strm_laws.specs.Based.{based};
ghost use Rattle.strm_laws.specs.Pair.{new_pair, call_refused, call_verdict, queue_refused, AddsEntry, Stops};
ghost use Rattle.strm_types.specs.Journal.{entries_in, entry_len};
ghost use Rattle.strm_laws.specs.Refusals.{enough, has_room};
ghost use Rattle.strm_laws.specs.Step.{replay, IsLegal};
ghost use Rattle.strm_laws.specs.Kept.{told_by};
ghost use Rattle.strm_laws.specs.Ledgers.{Balanced, is_booked, ledger_of, own_places_of, places_of};
ghost use Rattle.strm_types.specs.declared.names.Dir.{Dir};
ghost use Rattle.strm_types.specs.Names.{AreQueues};
ghost use Rattle.strm_pair.specs.Enabling.{AreKnownThere};
ghost use Rattle.strm_types.specs.Queue.{bytes_of};
ghost use Rattle.strm_laws.specs.ModuleTurns.{place_named};
ghost use Rattle.strm_laws.specs.Restorable.{Restorable};
ghost use Rattle.strm_laws.specs.State.{AreOrdered, book, messages_in, stream};
ghost use Rattle.strm_blocks.specs.Blocks.{empty_store};
ghost use Rattle.strm_frame.specs.Hands.{IsWide};
ghost use Rattle.strm_pair.specs.Makes.{Makes};
ghost use Rattle.strm_pair.specs.OwnSettings.{settings_among};
ghost use Rattle.strm_pair.specs.Shows.{Shows, count_at, first_at, full_at, messages_at};
ghost use Rattle.strm_pair.specs.Pool.{IsPoolOf};
ghost use Rattle.strm_image.specs.HasImage.{imaged};
ghost use Rattle.strm_image.specs.Image.{image};
ghost use Rattle.strm_image.specs.declared.versions.Version.TheVariants.{Second};
ghost use Rattle.strm_pair.specs.PairViews.{sizes_over};

use crate::answers::own;
use crate::base::Base;
use crate::journal::Journal;
use crate::ledgers::sum;
use crate::own_settings::settings_among;
use crate::past::Past;
use crate::refusals::or_else;
use crate::shelves::Shelf;
use crate::streams::{Streams, queue_tables};
use std::alloc::Global;
use std::marker::{Model, PhantomData};
use strm_blocks::{Blocks, Reserve};
use strm_image::{IMAGE_BLOCK, IMAGE_FIXED};
use strm_journal::Packed;
use strm_own::{NoModule, OwnModule};
use strm_types::{
    Answer, Band, Caller, Config, Content, Dir, Event, Fates, LISTS, Ledger, NoMemory, Place,
    QueueName, ReadBytes, Refusal, Side, Turn, Verdict, turn_blocks, unless,
};

/// A pair of a master and a slave, whose messages stand in a store of its own. Contracts see it as its plain state, its
/// journal with the state that it began at, the sizes that it was made with, and the numbers of free blocks.
#[derive(Drop)]
pub struct Pair<B: Blocks + Drop, M: OwnModule = NoModule> {
    store: B,
    streams: Streams,
    shelf: Shelf,
    journal: Journal,
    base: Base,
    limits: Config,
    fates: Fates,
    of: PhantomData<M>,
}

/// What a pair's journal holds: the base at which it begins, as an image of version 2, its entries, and their bytes in order.
#[derive(Clone, Copy)]
pub struct Recorded<'a> {
    pub base: &'a [u8],
    pub entries: &'a [Packed],
    pub bytes: &'a [u8],
}

impl<B: Blocks + Drop, M: OwnModule> Model for Pair<B, M> {
    ghost use Rattle.strm_laws.specs.Pair.{PairState};

    ghost Value = { PairState };

    ghost use Rattle.strm_pair.specs.BaseTexts.{start_in};
    ghost use Rattle.strm_pair.specs.PairViews.{pair_of, IsWhole};

    ghost view = { λ p. pair_of (B.value p.store) p.streams p.journal (start_in p.base) p.limits p.fates };

    ghost invariant = { λ p. IsWhole M.does M.wide M.queued (B.value p.store) p.streams p.shelf p.journal p.base p.limits p.fates };
}

impl<B: Blocks + Drop, M: OwnModule> Pair<B, M> {
    /// A pair which nobody opened, over a store that holds nothing: its lists are empty, and nothing is in hand. The
    /// sizes of its journal are those of `sizes`, its numbers of blocks are the store's. The memory of the journal with its base, which is
    /// [`IMAGE_FIXED`] bytes and [`IMAGE_BLOCK`] for each message block, and of the queues' bands is reserved here, and no later call takes
    /// any to keep; where that is refused, the store comes back. Where the modules of a user's own are `wide`, the store has at least as many data
    /// blocks as message blocks ([`OwnModule`]).
    pub fn new(alloc: Global, sizes: Config, store: B) -> Result<Pair<B, M>, (NoMemory, B)>
        requires lists { (B.value store).lists ≡ replicate LISTS [] }
        requires hand { (B.value store).hand ≡ [] }
        requires wide { IsWide M.wide (B.value store) }
        ensures { MatchResult result
            (λ p. p ≡ new_pair (sizes_over (B.value store) sizes))
            (λ e. B.value e.1 ≡ B.value store) }
    {
        let Ok(tables) = queue_tables::<M>(alloc) else {
            return Err((NoMemory, store));
        };
        let Ok(journal) = Journal::new(alloc, sizes.journal_events, sizes.journal_bytes) else {
            return Err((NoMemory, store));
        };
        store.audit();
        let (mblks, dblks) = store.free_blocks();
        let Ok(memory) = Vec::with_capacity(alloc, IMAGE_FIXED + IMAGE_BLOCK * mblks) else {
            return Err((NoMemory, store));
        };
        let streams = Streams::new(tables.ends);
        let fates = Fates::none();
        let base = Base::at(&store, &streams, &fates, memory);
        let limits = Config {
            mblks,
            dblks,
            ..sizes
        };
        Ok(Pair {
            store,
            streams,
            shelf: tables.shelf,
            journal,
            base,
            limits,
            fates,
            of: PhantomData,
        })
    }

    /// A pair which nobody opened, over a store of its own with as many blocks as `sizes` says, from 1 to 65536 of each kind: [`Pair::new`] with
    /// [`Reserve::reserve`]. All memory is reserved here.
    pub fn reserve(alloc: Global, sizes: Config) -> Result<Pair<B, M>, NoMemory>
    where
        B: Reserve,
        requires some_mblks { 0 < sizes.mblks }
        requires few_mblks { sizes.mblks ≤ 65536 }
        requires some_dblks { 0 < sizes.dblks }
        requires few_dblks { sizes.dblks ≤ 65536 }
        requires wide { IsWide M.wide (empty_store sizes.mblks sizes.dblks) }
        ensures { IfOk result (λ p. p ≡ new_pair sizes) }
    {
        let Ok(store) = B::reserve(alloc, sizes.mblks, sizes.dblks) else {
            return Err(NoMemory);
        };
        match Pair::new(alloc, sizes, store) {
            Ok(pair) => Ok(pair),
            Err((NoMemory, _store)) => Err(NoMemory),
        }
    }

    /// Makes the pair as new, in place: nobody opened it, and its store and its journal are empty. It takes no
    /// memory. The cost is that of the blocks that were used, of what was entered, and of the image of a new pair.
    pub fn reset(&mut self)
        ensures { self.new ≡ new_pair self.old.limits }
    {
        self.store.reset();
        self.streams.renew(&mut self.shelf);
        self.journal.clear();
        self.fates = Fates::none();
        self.base.past = Past::none();
        self.base.write(&self.store, &self.streams, &self.fates);
    }

    /// The queues that are enabled, in order of enabling: each is of a place where queues stand, of modules only of such of which there are some.
    pub fn enabled(&self) -> &[QueueName]
        ensures names { result.now ≡ self.now.state.enabled }
        ensures queues { AreQueues result.now }
        ensures known { AreKnownThere M.does result.now }
    {
        self.streams.enabled.as_slice()
    }

    /// The queue that was enabled first.
    pub fn first_enabled(&self) -> Option<QueueName>
        ensures { result ≡ slice_get self.now.state.enabled 0 }
    {
        self.streams.enabled.as_slice().first().copied()
    }

    /// How many message blocks and data blocks are free.
    pub fn free_blocks(&self) -> (usize, usize)
        ensures mblks { result.0 ≡ self.now.free.mblks }
        ensures dblks { result.1 ≡ self.now.free.dblks }
    {
        self.store.free_blocks()
    }

    /// How many bytes have gone in each direction by each rule: what reads gave, and what flushes and closes took. They are counted
    /// from where the pair was made; a restored one goes on from what its image tells.
    pub fn fates(&self) -> &Fates
        ensures { result.now ≡ self.now.fates }
    {
        &self.fates
    }

    /// How many bytes were written in a direction, counted as [`Pair::fates`] are.
    pub fn written(&self, direction: Dir) -> u64
        ensures { result ≡ (book direction self.now.state).written }
    {
        self.streams.book(direction).written
    }

    /// What holds of every pair, whatever was called. The plain state that contracts see is what its message blocks stand for, read along their
    /// chains ([`Pair::store`]): it is the one to which its journal leads from its base (`replayed`), each entry a legal step with the answer
    /// that it stores (`legal`). Each queue is in order of rank, and first come within a rank (`ordered`). Each message has a message block at
    /// least, and all blocks are free where there is no message (`blocks`). What has gone is what the entries say (`told`). In each direction
    /// what was written and made is what stands on queues and in lines, and what has gone by each rule (`balanced`); an image may hold it
    /// (`restorable`); and every byte that stood there where the journal begins, or was booked since, has exactly one place, in its own direction,
    /// and no other byte has any (`once`, `own`). What [`Pair::count`] and [`Pair::is_full`] tell of a queue are the sums of its messages. It does nothing.
    pub fn audit(&self)
        ensures replayed { self.now.state ≡ replay M.does plain self.now.base self.now.journal }
        ensures legal { IsLegal M.does plain self.now.base self.now.journal }
        ensures ordered { AreOrdered self.now.state }
        ensures blocks { IsPoolOf (messages_in self.now.state) self.now.limits self.now.free }
        ensures told { self.now.fates ≡ told_by M.does plain self.now.base self.now.journal self.now.base_fates }
        ensures balanced { (dir : Dir) → Balanced dir self.now.state self.now.fates }
        ensures restorable { Restorable self.now.state }
        ensures once { (o : Origin) → places_of M.does o self.now.base self.now.journal
            ≡ (if is_booked o self.now.base (replay M.does tagged (based self.now.base) self.now.journal) then 1 else 0) }
        ensures own { (o : Origin) → own_places_of M.does o self.now.base self.now.journal
            ≡ (if is_booked o self.now.base (replay M.does tagged (based self.now.base) self.now.journal) then 1 else 0) }
    {
        self.store.audit();
    }

    /// The ledger of a direction: how many bytes were written and made there, how many stand on its queues and in its unfinished
    /// lines, and how many have gone by each rule ([`Pair::fates`]); so written and made add up to all others. Every byte that stood
    /// there where the journal begins, or was booked since, has exactly one place, in its direction: on a queue, in a line, or among what
    /// has gone by one rule; and no other byte has any.
    ///
    /// The cost is a step for each module and each rule: what stands on the queues is told by the balance.
    pub fn ledger(&self, direction: Dir) -> Ledger
        ensures ledger { result ≡ ledger_of direction self.now.state self.now.fates }
        ensures balance { result.written + result.made ≡ result.queued + (result.inline + sum_by (λ n. n) result.fates) }
        ensures replayed { self.now.state ≡ replay M.does plain self.now.base self.now.journal }
        ensures told { self.now.fates ≡ told_by M.does plain self.now.base self.now.journal self.now.base_fates }
        ensures once { (o : Origin) → places_of M.does o self.now.base self.now.journal
            ≡ (if is_booked o self.now.base (replay M.does tagged (based self.now.base) self.now.journal) then 1 else 0) }
        ensures own { (o : Origin) → own_places_of M.does o self.now.base self.now.journal
            ≡ (if is_booked o self.now.base (replay M.does tagged (based self.now.base) self.now.journal) then 1 else 0) }
    {
        self.audit();
        let book = self.streams.book(direction);
        let inline = self.streams.line_lens(direction) as u64;
        let fates = self.fates.of(direction);
        let elsewhere = inline + sum(fates);
        Ledger {
            written: book.written,
            made: book.made,
            queued: book.written + book.made - elsewhere,
            inline,
            fates: *fates,
        }
    }

    /// The store, whose lists show the queues of the state, each chain read along its links from read place to write
    /// place.
    pub fn store(&self) -> &B
        ensures { Shows (B.value result.now) self.now.state }
    {
        &self.store
    }

    /// How many bytes count in a band, of a queue, which is what its marks are compared with: those of its
    /// messages of that band, and in band 0 those of high priority too. A queue that doesn't exist counts none.
    pub fn count(&self, queue: QueueName, band: Band) -> usize
        ensures { result ≡ count_at queue band.0 self.now.state }
    {
        self.streams.count(&self.store, queue, band)
    }

    /// How many messages stand on a queue, and how many bytes they have, all of them: (0, 0) for a queue that doesn't
    /// exist. The cost is a step for each band above 0 where bytes stand, however many messages there are.
    pub fn sizes(&self, queue: QueueName) -> (usize, usize)
        ensures messages { result.0 ≡ length (messages_at queue self.now.state) }
        ensures bytes { result.1 ≡ bytes_of (messages_at queue self.now.state) }
    {
        self.streams.sizes(&self.store, queue)
    }

    /// How many bytes the first message of a queue has: 0 where none stands there, and for a queue that doesn't exist. The cost is a
    /// step for each block of the message.
    pub fn first_size(&self, queue: QueueName) -> usize
        ensures { result ≡ first_at queue self.now.state }
    {
        self.streams.first_size(&self.store, queue)
    }

    /// How many modules stand on a side's stream.
    pub fn modules(&self, side: Side) -> usize
        ensures { result ≡ modules_on side self.now.state }
    {
        self.streams.modules_on(side)
    }

    /// Whether a module with queues of a place stands on a side's stream.
    pub fn has_queues(&self, side: Side, place: Place) -> bool
        ensures { result ≡ is_some (place_named place (stream side self.now.state).modules) }
    {
        self.streams.module_named(side, place).is_some()
    }

    /// What the module of a user's own of a number is set to that stands on a side's stream, at most `SETTINGS_MAX` bytes; `None` where none of the
    /// number stands there. The cost is a step for each module.
    pub fn settings(&self, side: Side, number: u8) -> Option<&[u8]>
        ensures { option_copied result ≡ settings_among number (stream side self.now.state).modules }
    {
        settings_among(self.streams.end(side).stack.modules.as_slice(), number)
    }

    /// Whether a band, of a queue is full: its count is at or above its high-water mark. A queue that
    /// doesn't exist isn't full.
    pub fn is_full(&self, queue: QueueName, band: Band) -> bool
        ensures { result ≡ full_at queue band.0 self.now.state }
    {
        self.streams.is_full(&self.store, queue, band)
    }

    // Whether so many blocks of each kind are free.
    fn has_blocks(&self, need: usize) -> bool
        ensures { result ≡ enough need self.now.free }
    {
        let (mblks, dblks) = self.free_blocks();
        need <= mblks && need <= dblks
    }

    // Whether the journal takes one more entry with so many bytes.
    fn has_room(&self, bytes: usize) -> bool
        ensures { result ≡ has_room self.now.journal self.now.limits bytes }
    {
        self.journal.has_room(bytes)
    }

    // How many more entries the journal takes.
    pub(crate) fn entries_left(&self) -> usize
        ensures { result + length self.now.journal ≡ self.now.limits.journal_events }
    {
        self.journal.left()
    }

    // The verdict on a call.
    #[inline(always)]
    fn verdict(&self, caller: Caller, event: &Event<&[u8]>) -> Verdict
        ensures { result ≡ call_verdict M.does self.now caller (request event.now) }
    {
        let needs = event.needs();
        if let Some(refusal) = self.streams.unmet(caller.side, &needs) {
            return Verdict::Refused(refusal);
        }
        if !self.has_room(needs.brings + needs.gives) {
            return Verdict::Refused(Refusal::JournalFull);
        }
        if !self.has_blocks(needs.blocks) {
            return Verdict::Refused(Refusal::Enosr);
        }
        self.streams
            .verdict::<B, M>(&self.store, caller, event, needs.access)
    }

    // The refusal of a turn, if any.
    #[inline(always)]
    pub(crate) fn turn_refusal(&self, name: QueueName) -> Option<Refusal>
        ensures { result ≡ queue_refused self.now name }
    {
        or_else(
            unless(self.streams.enabled.contains(name), Refusal::Einval),
            or_else(
                unless(self.streams.in_range(), Refusal::Erange),
                or_else(
                    unless(self.has_room(0), Refusal::JournalFull),
                    unless(self.has_blocks(turn_blocks(name.place)), Refusal::Enosr),
                ),
            ),
        )
    }

    /// Makes a call, and tells it as [`Pair::call`] does, with the bytes of a read or of a get in the answer. Each part of an
    /// answer has room for 4096 bytes, and whoever makes many calls keeps a buffer and takes `call`.
    pub fn apply(
        &mut self,
        caller: Caller,
        event: &Event<&[u8]>,
    ) -> Result<Answer<ReadBytes>, Refusal>
        ensures refused { MatchOption (call_refused M.does self.old caller (request event.now)) (IsOk result)
            (λ r. (result ≡ Err r) × (self.new ≡ self.old)) }
        ensures adds { IfOk result (λ answer.
            AddsEntry M.does self.old self.new (Called caller (request event.now) (map_answer (λ b. b.items) answer))) }
    {
        let mut out = Content::new();
        match self.call(caller, event, &mut out) {
            Err(refusal) => Err(refusal),
            Ok(answer) => Ok(own(answer, out.as_slice())),
        }
    }

    /// Makes a call. It is refused for the first of: its side isn't open, or is hung up where the call sends something down
    /// (ENXIO); an argument is wrong (EINVAL); a book is full (ERANGE); the journal is full; too few blocks are free (ENOSR); its caller
    /// is in the background and may not be stopped (EIO); the state doesn't allow it (EAGAIN, EBADMSG, EINVAL). A refused call changes nothing, and `out` stays. Else the call is carried out, and the journal gains it with its answer;
    /// `out` has the bytes that it gives, which are none for any call but a read and a get: a get gives those of the control part
    /// first. No part has more than 4096 bytes.
    ///
    /// The cost is in proportion to the bytes that the call moves. No memory is taken.
    #[inline(always)]
    pub fn call(
        &mut self,
        caller: Caller,
        event: &Event<&[u8]>,
        out: &mut Content,
    ) -> Result<Answer<u32>, Refusal>
        ensures { Makes M.does self.old self.new caller (request event.now) result out.old out.new }
    {
        match event {
            Event::Write { bytes } => self.write_apart(caller, bytes, out),
            Event::Read { n } => self.read_apart(caller, *n, out),
            Event::Put { .. } => self.put_apart(caller, event, out),
            Event::Get { .. } => self.get_apart(caller, event, out),
            Event::Ioctl { .. } => self.ioctl_apart(caller, event, out),
            _ => self.open_apart(caller, event, out),
        }
    }

    /// Makes a turn of an enabled queue's service procedure. It is refused where the queue isn't enabled (EINVAL), a book is
    /// full (ERANGE), the journal is full, or too few blocks of a kind are free (ENOSR): 8 for a driver's queue, 32 for a module's. It
    /// changes nothing then. Else the journal gains the turn with its answer.
    ///
    /// A turn of ldterm's may stop within its message, and only where fewer than 32 blocks of a kind are left behind it; once the master is closed
    /// its driver frees output, and more may be. Its answer says how far it went: a byte at least where the message has any.
    /// The cost is that of one message. No memory is taken.
    pub fn turn(&mut self, name: QueueName) -> Result<Turn, Refusal>
        ensures refused { MatchOption (queue_refused self.old name) (IsOk result)
            (λ r. (result ≡ Err r) × (self.new ≡ self.old)) }
        ensures adds { IfOk result (λ turn. AddsEntry M.does self.old self.new (Turned name turn)) }
        ensures stops { IfOk result (λ turn. Stops self.old self.new name turn) }
    {
        if let Some(refusal) = self.turn_refusal(name) {
            return Err(refusal);
        }
        let turn = self
            .streams
            .turn::<B, M>(&mut self.store, name, &mut self.fates);
        self.journal.add_turn(name, turn);
        Ok(turn)
    }

    /// All that was carried out since the journal began, in order. The message blocks stand for the state to which it leads from the state that
    /// it began at, each entry is a legal step with the answer that it stores, each queue is in order of rank, each
    /// message has a message block at least, and all blocks are free where there is no message.
    pub fn journal(&self) -> Recorded<'_>
        ensures base { result.base.now ≡ image.text (Second, imaged self.now.base self.now.base_fates) }
        ensures entries { entries_in result.entries.now result.bytes.now ≡ self.now.journal }
        ensures lengths { sum_by entry_len result.entries.now ≡ length result.bytes.now }
        ensures replayed { self.now.state ≡ replay M.does plain self.now.base self.now.journal }
        ensures legal { IsLegal M.does plain self.now.base self.now.journal }
        ensures told { self.now.fates ≡ told_by M.does plain self.now.base self.now.journal self.now.base_fates }
        ensures ordered { AreOrdered self.now.state }
        ensures blocks { IsPoolOf (messages_in self.now.state) self.now.limits self.now.free }
    {
        self.audit();
        Recorded {
            base: self.base.text.as_slice(),
            entries: self.journal.entries.as_slice(),
            bytes: self.journal.bytes.as_slice(),
        }
    }
}

mod calls;
mod poll;
mod restore;
mod trace;
