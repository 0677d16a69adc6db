//! Writes on a side's stream, chunk by chunk (write(2), streamio(7I)).

ghost use Rattle.std.specs.Prelude.{◌≡◌, ◌+◌, ◌≤◌, ◌<◌, ◌^◌, length};
ghost use Rattle.strm_types.specs.declared.answers.Answer.TheVariants.{Count};
ghost use Rattle.strm_types.specs.Books.{with_written};
ghost use Rattle.strm_laws.specs.Calls.{wrote};
ghost use Rattle.strm_types.specs.Cells.{plain};
ghost use Rattle.strm_types.specs.Message.{data_message};
ghost use Rattle.strm_types.specs.Names.{direction_from};
ghost use Rattle.strm_laws.specs.Puts.{delivered};
ghost use Rattle.strm_laws.specs.State.{book};
ghost use Rattle.strm_types.specs.Write.{chunk_count, chunks_of};
ghost use Rattle.strm_laws.specs.Writes.{below_head, chunks_sent};
ghost use Rattle.strm_blocks.specs.Blocks.{StoreValue};
ghost use Rattle.strm_frame.specs.Hands.{HasRoom, IsWide, Spends};

use crate::streams::Streams;
use strm_blocks::Blocks;
use strm_head::write;
use strm_own::OwnModule;
use strm_types::{Band, Book, Fates, Side, Spot, Way, chunk_count};

// A book with so many more bytes written.
pub(crate) fn with_written(book: Book, count: usize) -> Book
    requires { book.written + count < 2 ^ 64 }
    ensures { result ≡ with_written count book }
{
    Book {
        written: book.written + count as u64,
        ..book
    }
}

impl Streams {
    ghost use Rattle.strm_pair.specs.Effects.{AreAtRest, Delivers, MayDeliver};
    ghost use Rattle.strm_pair.specs.Pairs.{state_in};

    // The book of what comes from a side.
    pub(crate) fn book_of(&self, side: Side) -> Book
        ensures { (s : StoreValue) → result ≡ book (direction_from side) (state_in s self.now) }
    {
        *self.books.get(side)
    }

    // Makes an ordinary message of bytes, and delivers it from below a side's head.
    fn send_chunk<B: Blocks, M: OwnModule>(
        &mut self,
        store: &mut B,
        side: Side,
        chunk: &[u8],
        told: &mut Fates,
    )
        requires rests { AreAtRest (B.value store.old) self.old }
        requires small { length chunk.now ≤ 256 }
        requires room { HasRoom (B.value store.old) 1 }
        requires wide { IsWide M.wide (B.value store.old) }
        ensures delivers { let s = B.value store.old in
            let is = delivered M.does plain (below_head side) (data_message chunk.now) (state_in s self.old) in
            Delivers s (B.value store.new) self.old self.new told.old told.new is.state is.gone 0 }
        ensures spends { Spends (B.value store.old) (B.value store.new) 1 0 }
    {
        let message = write(store, chunk);
        let below = Spot {
            side,
            at: 1,
            way: Way::Down,
        };
        self.deliver_alone::<B, M>(store, below, message, told);
    }

    // Sends so many chunks of the bytes, of at most 256 each, while band 0 of the first queue below the head isn't full, and says how
    // many bytes have gone. Each takes one block of each kind.
    #[inline(always)]
    fn send_chunks<B: Blocks, M: OwnModule>(
        &mut self,
        store: &mut B,
        side: Side,
        bytes: &[u8],
        chunks: usize,
        told: &mut Fates,
    ) -> usize
        requires rests { AreAtRest (B.value store.old) self.old }
        requires room { HasRoom (B.value store.old) chunks }
        requires wide { IsWide M.wide (B.value store.old) }
        ensures taken { result
            ≡ (chunks_sent M.does plain side (chunks_of chunks bytes.now) (state_in (B.value store.old) self.old)).taken }
        ensures fits { result ≤ length bytes.now }
        ensures delivers { let s = B.value store.old in let is = chunks_sent M.does plain side (chunks_of chunks bytes.now) (state_in s self.old) in
            Delivers s (B.value store.new) self.old self.new told.old told.new is.state is.gone 0 }
    {
        if chunks == 0 {
            return 0;
        }
        if self.is_full_below(store, side, Band(0)) {
            return 0;
        }
        let (chunk, rest) = bytes.split_at(bytes.len().min(256));
        self.send_chunk::<B, M>(store, side, chunk, told);
        let more = self.send_chunks::<B, M>(store, side, rest, chunks - 1, told);
        chunk.len() + more
    }

    /// Writes bytes down a side's stream, and answers how many were taken: they go down from the head in chunks of at most 256,
    /// each an ordinary message, while band 0 of the first queue below has room.
    #[inline(always)]
    pub fn write<B: Blocks, M: OwnModule>(
        &mut self,
        store: &mut B,
        side: Side,
        bytes: &[u8],
        told: &mut Fates,
    ) -> u32
        requires may { MayDeliver (B.value store.old) self.old (chunk_count (length bytes.now)) }
        requires wide { IsWide M.wide (B.value store.old) }
        ensures answer { Count result ≡ (wrote M.does plain side bytes.now (state_in (B.value store.old) self.old)).answer }
        ensures delivers { let s = B.value store.old in let is = wrote M.does plain side bytes.now (state_in s self.old) in
            Delivers s (B.value store.new) self.old self.new told.old told.new is.state is.gone 0 }
    {
        store.audit();
        let chunks = chunk_count(bytes.len());
        let taken = self.send_chunks::<B, M>(store, side, bytes, chunks, told);
        let book = with_written(self.book_of(side), taken);
        self.keep_book(side, book);
        taken as u32
    }
}
