//! The calls of a store of message blocks and data blocks.
ghost use Rattle.std.specs.Prelude.{true, ◌≡◌, ◌≢◌, ◌==◌, ℕ, ◌<◌, ◌≤◌, [], ◌++◌, length, take, MatchResult, MatchOption};
ghost use Rattle.strm_types.specs.declared.limits.TheConstants.{LISTS};
ghost use Rattle.strm_blocks.specs.Blocks.{StoreValue, IsStore, IsInHand, in_hand, list_at, held, dropped, changed, placed, empty_store, block_at, filled_block, with_block, put, put_back, trimmed_head, trimmed_tail, taken_by, extended, of_kind, banded, free_m, free_d, token};
ghost use Rattle.strm_blocks.specs.Outcomes.{Allocated, Duplicated, Copied, NoneFree, NoneShared, Unlinked, UnlinkedLast, Popped, PoppedLast, Unpopped, PeekedFirst, summary_of, seen_in, seen_on, told, flushed};

use crate::asked::{FlushWhat, NoBlocks, Peek, Summary};
use crate::in_hand::InHand;
use crate::visitor::Visitor;
use strm_types::{Band, MsgKind};

/// A store of message blocks and data blocks, as one pair of streams has it (STREAMS Programming Guide, "Message
/// Structure"). A message is a chain of message blocks, and each of these names a data block of 256 bytes, of which it
/// shows the bytes from its read place to its write place. A data block may be named by up to 255 message blocks.
/// Messages stand on `LISTS` lists, numbered from 0, or are in hand.
///
/// Each call changes the one list or the message in hand that it is given, and nothing else. No call takes memory.
pub trait Blocks {
    /// The store as a value.
    ghost value: { Self → StoreValue };

    /// Does nothing. Its contract is what holds of every store.
    fn audit(&self)
        ensures { IsStore (value self.now) };

    /// Takes a message block and a data block with nothing written, as a message of that kind and of band 0:
    /// `allocb(9F)`. `NoBlocks` where none of either kind is free.
    fn alloc(&mut self, kind: MsgKind) -> Result<InHand, NoBlocks>
        ensures { MatchResult result
            (λ m. Allocated (value self.old) (value self.new) (token m) kind)
            (λ _. NoneFree (value self.old) (value self.new)) };

    /// Takes a message block and a data block with these bytes written, as a message of that kind and band: `allocb(9F)`
    /// and a copy. `NoBlocks` where none of either kind is free.
    fn alloc_with(&mut self, kind: MsgKind, band: Band, bytes: &[u8]) -> Result<InHand, NoBlocks>
        requires { length bytes.now ≤ 256 }
        ensures { MatchResult result
            (λ m. Copied (value self.old) (value self.new) (token m) (filled_block kind band.0 bytes.now))
            (λ _. NoneFree (value self.old) (value self.new)) };

    /// Takes a message block that names the same bytes of the same data block as block `at` of the message does:
    /// `dupb(9F)`. `NoBlocks` where no message block is free, or the data block has 255 references.
    fn dup(&mut self, message: &InHand, at: usize) -> Result<InHand, NoBlocks>
        requires in_hand { IsInHand (value self.old) (token message.now) }
        requires within { at < length (in_hand (value self.old) (token message.now)) }
        ensures { let b = block_at at (in_hand (value self.old) (token message.now)) in
            MatchResult result
            (λ m. Duplicated (value self.old) (value self.new) (token m) b)
            (λ _. NoneShared (value self.old) (value self.new) b.number) };

    /// Takes a message block and a data block, and copies into it the bytes that block `at` of the message shows:
    /// `copyb(9F)`. `NoBlocks` where none of either kind is free.
    fn copy(&mut self, message: &InHand, at: usize) -> Result<InHand, NoBlocks>
        requires in_hand { IsInHand (value self.old) (token message.now) }
        requires within { at < length (in_hand (value self.old) (token message.now)) }
        ensures { let b = block_at at (in_hand (value self.old) (token message.now)) in
            MatchResult result
            (λ m. Copied (value self.old) (value self.new) (token m) b)
            (λ _. NoneFree (value self.old) (value self.new)) };

    /// Gives back all message blocks of a message, and each data block that no other message block names: `freemsg(9F)`.
    fn free(&mut self, message: InHand)
        requires { IsInHand (value self.old) (token message) }
        ensures { value self.new ≡ dropped (value self.old) (token message) };

    /// Hangs the second message behind the first: `linkb(9F)`.
    fn link(&mut self, first: InHand, second: InHand) -> InHand
        requires first_in_hand { IsInHand (value self.old) (token first) }
        requires second_in_hand { IsInHand (value self.old) (token second) }
        requires apart { token first ≢ token second }
        ensures kept_name { token result ≡ token first }
        ensures linked { let s = value self.old in
            value self.new ≡ changed (dropped s (token second)) (token first)
            (in_hand s (token first) ++ in_hand s (token second)) };

    /// Parts a message into its first block and the rest, if there is any: `unlinkb(9F)`.
    fn unlink(&mut self, message: InHand) -> (InHand, Option<InHand>)
        requires { IsInHand (value self.old) (token message) }
        ensures { let old = value self.old in let new = value self.new in
            MatchOption result.1
            (UnlinkedLast old new (token message) (token result.0))
            (λ rest. Unlinked old new (token message) (token result.0) (token rest)) };

    /// Writes bytes behind the write place of the message's last block, as many as its data block has room for, and
    /// none where that data block is shared. Returns how many.
    fn append(&mut self, message: &InHand, bytes: &[u8]) -> usize
        requires { IsInHand (value self.old) (token message.now) }
        ensures count { let s = value self.old in
            result ≡ taken_by s (in_hand s (token message.now)) (length bytes.now) }
        ensures written { let s = value self.old in
            value self.new ≡ changed s (token message.now)
            (extended (take result bytes.now) (in_hand s (token message.now))) };

    /// The bytes from the read place to the write place of block `at` of a message, at most 256.
    fn bytes_at(&self, message: &InHand, at: usize) -> &[u8]
        requires in_hand { IsInHand (value self.now) (token message.now) }
        requires within { at < length (in_hand (value self.now) (token message.now)) }
        ensures bytes { result.now ≡ (block_at at (in_hand (value self.now) (token message.now))).bytes }
        ensures few { length result.now ≤ 256 };

    /// Moves the read place of block `at` of a message on by `n` bytes, or by all that it shows where those are fewer:
    /// `adjmsg(9F)` within one block.
    fn trim_head(&mut self, message: &InHand, at: usize, n: usize)
        requires in_hand { IsInHand (value self.old) (token message.now) }
        requires within { at < length (in_hand (value self.old) (token message.now)) }
        ensures { let chain = in_hand (value self.old) (token message.now) in
            value self.new ≡ changed (value self.old) (token message.now)
            (with_block at (trimmed_head n (block_at at chain)) chain) };

    /// Moves the write place of block `at` of a message back by `n` bytes, or by all that it shows where those are fewer:
    /// `adjmsg(9F)` within one block.
    fn trim_tail(&mut self, message: &InHand, at: usize, n: usize)
        requires in_hand { IsInHand (value self.old) (token message.now) }
        requires within { at < length (in_hand (value self.old) (token message.now)) }
        ensures { let chain = in_hand (value self.old) (token message.now) in
            value self.new ≡ changed (value self.old) (token message.now)
            (with_block at (trimmed_tail n (block_at at chain)) chain) };

    /// How many blocks a message has, at least one.
    fn blocks(&self, message: &InHand) -> usize
        requires { IsInHand (value self.now) (token message.now) }
        ensures count { result ≡ length (in_hand (value self.now) (token message.now)) }
        ensures some { 0 < result };

    /// How many bytes block `at` of a message shows, at most 256.
    fn block_len(&self, message: &InHand, at: usize) -> usize
        requires in_hand { IsInHand (value self.now) (token message.now) }
        requires within { at < length (in_hand (value self.now) (token message.now)) }
        ensures count { result ≡ length (block_at at (in_hand (value self.now) (token message.now))).bytes }
        ensures few { result ≤ 256 };

    /// The kind of block `at` of a message. The kind of the message is that of block 0.
    fn kind(&self, message: &InHand, at: usize) -> MsgKind
        requires in_hand { IsInHand (value self.now) (token message.now) }
        requires within { at < length (in_hand (value self.now) (token message.now)) }
        ensures { result ≡ (block_at at (in_hand (value self.now) (token message.now))).kind };

    /// Gives block `at` of a message another kind. Its band and its bytes stay.
    fn set_kind(&mut self, message: &InHand, at: usize, kind: MsgKind)
        requires in_hand { IsInHand (value self.old) (token message.now) }
        requires within { at < length (in_hand (value self.old) (token message.now)) }
        ensures { let chain = in_hand (value self.old) (token message.now) in
            value self.new ≡ changed (value self.old) (token message.now)
            (with_block at (of_kind kind (block_at at chain)) chain) };

    /// The band of a message, which is that of its first block.
    fn band(&self, message: &InHand) -> Band
        requires { IsInHand (value self.now) (token message.now) }
        ensures { result.0 ≡ (block_at 0 (in_hand (value self.now) (token message.now))).band };

    /// The kind and the band of a message, and how many bytes it has, at once.
    fn summary(&self, message: &InHand) -> Summary
        requires { IsInHand (value self.now) (token message.now) }
        ensures { result ≡ summary_of (in_hand (value self.now) (token message.now)) };

    /// Gives a message another band.
    fn set_band(&mut self, message: &InHand, band: Band)
        requires { IsInHand (value self.old) (token message.now) }
        ensures { let s = value self.old in
            value self.new ≡ changed s (token message.now) (banded band.0 (in_hand s (token message.now))) };

    /// Whether no message stands on a list.
    fn is_empty(&self, list: usize) -> bool
        requires { list < LISTS }
        ensures { result ≡ (length (list_at (value self.now) list) == 0) };

    /// How many messages stand on a list: `qsize(9F)`.
    fn messages(&self, list: usize) -> usize
        requires { list < LISTS }
        ensures { result ≡ length (list_at (value self.now) list) };

    /// Puts a message on a list, behind all of at least its rank: `putq(9F)`. It takes one step where the last message of
    /// the list has at least the new one's rank, and else a step for each message that is passed.
    fn insert_back(&mut self, list: usize, message: InHand)
        requires list { list < LISTS }
        requires in_hand { IsInHand (value self.old) (token message) }
        ensures { let s = value self.old in
            value self.new ≡ placed (dropped s (token message)) list
            (put (in_hand s (token message)) (list_at s list)) };

    /// Puts a message on a list, in front of all of at most its rank: `putbq(9F)`.
    fn insert_front(&mut self, list: usize, message: InHand)
        requires list { list < LISTS }
        requires in_hand { IsInHand (value self.old) (token message) }
        ensures { let s = value self.old in
            value self.new ≡ placed (dropped s (token message)) list
            (put_back (in_hand s (token message)) (list_at s list)) };

    /// Takes the first message of a list, if there is one: `getq(9F)`.
    fn pop(&mut self, list: usize) -> Option<InHand>
        requires { list < LISTS }
        ensures { MatchOption result
            (Unpopped (value self.old) (value self.new) list)
            (λ m. Popped (value self.old) (value self.new) list (token m)) };

    /// Takes the last message of a list, if there is one.
    fn pop_last(&mut self, list: usize) -> Option<InHand>
        requires { list < LISTS }
        ensures { MatchOption result
            (Unpopped (value self.old) (value self.new) list)
            (λ m. PoppedLast (value self.old) (value self.new) list (token m)) };

    /// What can be seen of the first message of a list, if there is one.
    fn peek(&self, list: usize) -> Option<Peek>
        requires { list < LISTS }
        ensures { MatchOption result
            (list_at (value self.now) list ≡ [])
            (λ peek. PeekedFirst (value self.now) list peek) };

    /// Tells a visitor of the blocks of the messages of a list in their order, until it wants no more. It takes a step for
    /// each block of which the visitor is told.
    fn visit<V: Visitor>(&self, list: usize, visitor: &mut V)
        requires { list < LISTS }
        ensures { visitor.new ≡ told V.after V.goes_on visitor.old (seen_on (list_at (value self.now) list)) };

    /// Tells a visitor of the blocks of a message in hand in their order, until it wants no more. It takes a step for each
    /// block of which the visitor is told.
    fn visit_message<V: Visitor>(&self, message: &InHand, visitor: &mut V)
        requires { IsInHand (value self.now) (token message.now) }
        ensures { visitor.new ≡ told V.after V.goes_on visitor.old
            (seen_in true (in_hand (value self.now) (token message.now))) };

    /// Frees the messages of a list that a flush takes: `flushq(9F)`, `flushband(9F)`.
    fn drop_where(&mut self, list: usize, what: FlushWhat)
        requires { list < LISTS }
        ensures { let s = value self.old in
            value self.new ≡ placed s list (flushed what (list_at s list)) };

    /// How many message blocks and how many data blocks are free.
    fn free_blocks(&self) -> (usize, usize)
        ensures message_blocks { result.0 ≡ free_m (value self.now) }
        ensures data_blocks { result.1 ≡ free_d (value self.now) };

    /// Frees all messages, on the lists and in hand. Names of messages that were in hand stand for none from then on.
    fn reset(&mut self)
        ensures { value self.new ≡ empty_store (value self.old).mblks (value self.old).dblks };
}
