//! The journal of a pair.

ghost use Rattle.std.specs.Prelude.{◌≡◌, ◌+◌, ◌≤◌, ◌<◌, ◌^◌, [], ◌∷◌, ◌++◌, length, option_map, vec_capacity, true, IfOk};
ghost use Rattle.strm_types.specs.declared.entries.Entry.TheVariants.{Called, Turned};
ghost use Rattle.strm_types.specs.Events.{request, payload_of};
ghost use Rattle.strm_types.specs.Message.{part};
ghost use Rattle.strm_types.specs.Journal.{entry_in, entry_len, answer_len, reply_in, room_used};
ghost use Rattle.strm_laws.specs.Restorable.{IsWithinCall};
ghost use Rattle.strm_types.specs.declared.limits.TheConstants.{BANDS};
ghost use Rattle.strm_journal.specs.Replies.{HasShortParts};
ghost use Rattle.strm_pair.specs.Journals.{IsStored, has_room_for};

use crate::zeros::{give_back, shorten};
use std::alloc::{AllocError, Global};
use strm_journal::{Packed, forget_all};
use strm_types::{Answer, Caller, Event, Prio, QueueName, Turn};

/// All that was carried out on a pair, in order: the entries, and their bytes in a buffer. Both have their room from
/// the beginning. What it lets go is written over first.
pub(crate) struct Journal {
    pub entries: Vec<Packed>,
    pub bytes: Vec<u8>,
    pub most_entries: usize,
    pub most_bytes: usize,
    pub ghost stored: { IsStored entries.items bytes.items (vec_capacity entries) (vec_capacity bytes)
        most_entries most_bytes },
}

impl Drop for Journal {
    fn drop(self) {
        let Journal {
            mut entries,
            bytes,
            most_entries: _,
            most_bytes: _,
        } = self;
        forget_all(&mut entries);
        give_back(bytes);
    }
}

// Adds bytes to a buffer that has room for them. Inlined, so that where there are none nothing is called; a byte alone, as a key is written
// and read, is stored in its place.
#[inline(always)]
fn append(buffer: &mut Vec<u8>, bytes: &[u8])
    requires { length buffer.old.items + length bytes.now ≤ vec_capacity buffer.old }
    ensures items { buffer.new.items ≡ buffer.old.items ++ bytes.now }
    ensures capacity { vec_capacity buffer.old ≤ vec_capacity buffer.new }
{
    match bytes {
        [] => {}
        [byte] => buffer.push_reserved(*byte),
        _ => buffer.extend_from_slice(bytes).unwrap(),
    }
}

// The number of a band is that of one that queues have: it is a byte. It does nothing.
fn is_low(number: u8)
    ensures { number < BANDS }
{}

// So is each band that a call names. It does nothing.
fn is_within(event: &Event<&[u8]>)
    ensures { IsWithinCall (request event.now) }
{
    if let Event::Put {
        prio: Prio::Band(band),
        ..
    } = event
    {
        is_low(band.0);
    }
}

// The bytes of a part, none where it is absent.
#[inline(always)]
fn part_bytes<'a>(lent: Option<&'a [u8]>) -> &'a [u8]
    ensures { result.now ≡ part (option_map (λ bytes. bytes.now) lent.entry) }
{
    match lent {
        Some(bytes) => bytes,
        None => &[],
    }
}

// The bytes of a call, in two parts. Inlined, so that where its kind is known nothing asks for it again.
#[inline(always)]
fn parts_of<'a>(event: &Event<&'a [u8]>) -> (&'a [u8], &'a [u8])
    ensures { result.0.now ++ result.1.now ≡ payload_of (request event.now) }
{
    match event {
        Event::Write { bytes } => (bytes, &[]),
        Event::Put { control, body, .. } => (part_bytes(*control), part_bytes(*body)),
        Event::Ioctl { body, .. } => (body, &[]),
        _ => (&[], &[]),
    }
}

impl Journal {
    ghost use Rattle.strm_pair.specs.Pairs.{journal_of};

    /// An empty journal with room for so many entries, and for so many of their bytes.
    pub fn new(alloc: Global, most_entries: usize, most_bytes: usize) -> Result<Journal, AllocError>
        ensures empty { IfOk result (λ j. journal_of j ≡ []) }
        ensures most_entries { IfOk result (λ j. j.most_entries ≡ most_entries) }
        ensures most_bytes { IfOk result (λ j. j.most_bytes ≡ most_bytes) }
    {
        Ok(Journal {
            entries: Vec::with_capacity(alloc, most_entries)?,
            bytes: Vec::with_capacity(alloc, most_bytes)?,
            most_entries,
            most_bytes,
        })
    }

    /// Forgets all entries, and keeps its room. The cost is that of what was entered.
    pub fn clear(&mut self)
        ensures empty { journal_of self.new ≡ [] }
        ensures most_entries { self.new.most_entries ≡ self.old.most_entries }
        ensures most_bytes { self.new.most_bytes ≡ self.old.most_bytes }
    {
        forget_all(&mut self.entries);
        shorten(&mut self.bytes, 0);
    }

    /// Whether one more entry with so many bytes fits.
    pub fn has_room(&self, bytes: usize) -> bool
        ensures { result ≡ has_room_for (journal_of self.now) self.now.most_entries self.now.most_bytes bytes }
    {
        self.entries.len() < self.most_entries && bytes <= self.most_bytes - self.bytes.len()
    }

    /// How many more entries fit.
    pub fn left(&self) -> usize
        ensures { result + length (journal_of self.now) ≡ self.now.most_entries }
    {
        self.most_entries - self.entries.len()
    }

    /// How many more bytes of entries fit.
    pub fn bytes_left(&self) -> usize
        ensures { result + room_used (journal_of self.now) ≡ self.now.most_bytes }
    {
        self.most_bytes - self.bytes.len()
    }

    // Adds an entry with its bytes: those of its call, in two parts, and those of its answer. Inlined, so that an entry is
    // written once, where it stays.
    #[inline(always)]
    fn add(&mut self, entry: Packed, first: &[u8], second: &[u8], content: &[u8])
        requires lengths { entry_len entry ≡ length first.now + length second.now + length content.now }
        requires room_entries { length self.old.entries.items < self.old.most_entries }
        requires room_bytes { length self.old.bytes.items + (length first.now + length second.now + length content.now)
            ≤ self.old.most_bytes }
        ensures added { journal_of self.new
            ≡ journal_of self.old ++ entry_in entry ((first.now ++ second.now) ++ content.now) ∷ [] }
        ensures most_entries { self.new.most_entries ≡ self.old.most_entries }
        ensures most_bytes { self.new.most_bytes ≡ self.old.most_bytes }
    {
        self.entries.push_reserved(entry);
        append(&mut self.bytes, first);
        append(&mut self.bytes, second);
        append(&mut self.bytes, content);
    }

    /// Adds a call with its answer, whose bytes are `content`.
    #[inline(always)]
    pub fn add_call(
        &mut self,
        caller: Caller,
        event: &Event<&[u8]>,
        answer: Answer<u32>,
        content: &[u8],
    )
        requires filled { answer_len answer ≡ length content.now }
        requires small { length (payload_of (request event.now)) < 2 ^ 32 }
        requires short { HasShortParts answer }
        requires room { has_room_for (journal_of self.old) self.old.most_entries self.old.most_bytes
            (length (payload_of (request event.now)) + length content.now) ≡ true }
        ensures added { journal_of self.new
            ≡ journal_of self.old ++ Called caller (request event.now) (reply_in answer content.now) ∷ [] }
        ensures within { IsWithinCall (request event.now) }
        ensures most_entries { self.new.most_entries ≡ self.old.most_entries }
        ensures most_bytes { self.new.most_bytes ≡ self.old.most_bytes }
    {
        is_within(event);
        let entry = Packed::called(caller, event, &answer);
        let (first, second) = parts_of(event);
        self.add(entry, first, second, content);
    }

    /// Adds a turn with its answer.
    pub fn add_turn(&mut self, queue: QueueName, turn: Turn)
        requires room { has_room_for (journal_of self.old) self.old.most_entries self.old.most_bytes 0 ≡ true }
        ensures added { journal_of self.new ≡ journal_of self.old ++ Turned queue turn ∷ [] }
        ensures most_entries { self.new.most_entries ≡ self.old.most_entries }
        ensures most_bytes { self.new.most_bytes ≡ self.old.most_bytes }
    {
        self.add(Packed::turned(&queue, turn), &[], &[], &[]);
    }
}
