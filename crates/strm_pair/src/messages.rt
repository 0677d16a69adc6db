//! Messages that putmsg(2) sends down a side's stream, and that getmsg(2) takes off its head.

ghost use Rattle.std.specs.Prelude.{ℕ, ◌≡◌, ◌≤◌, ◌<◌, ◌+◌, ◌^◌, [], length, min, None, option_map, List};
ghost use Rattle.strm_types.specs.declared.answers.Answer.TheVariants.{Done};
ghost use Rattle.strm_types.specs.declared.limits.TheConstants.{READ_MAX, WRITE_BLOCKS};
ghost use Rattle.strm_types.specs.Books.{with_written};
ghost use Rattle.strm_laws.specs.Calls.{get_at, put_at, sizes_at};
ghost use Rattle.strm_types.specs.Cells.{plain};
ghost use Rattle.strm_types.specs.Journal.{answer_len, reply_in};
ghost use Rattle.strm_types.specs.Message.{part};
ghost use Rattle.strm_types.specs.Names.{direction_from};
ghost use Rattle.strm_types.specs.PutMsg.{put_blocks, put_refusal};
ghost use Rattle.strm_laws.specs.State.{with_book};
ghost use Rattle.strm_frame.specs.Hands.{IsWide};
ghost use Rattle.strm_pair.specs.Parts.{longest_part};

use crate::streams::Streams;
use crate::writes::with_written;
use strm_blocks::Blocks;
use strm_head::{getmsg, make_message};
use strm_own::OwnModule;
use strm_types::{Answer, Book, Content, Fates, Prio, READ_MAX, Side, Spot, Wanted, Way};

// How many bytes a part has, none where it is absent.
fn len_of(lent: Option<&[u8]>) -> usize
    ensures value { result ≡ length (part (option_map (λ bytes. bytes.now) lent.entry)) }
    ensures small { result < 2 ^ 63 }
{
    match lent {
        Some(bytes) => bytes.len(),
        None => 0,
    }
}

impl Streams {
    ghost use Rattle.strm_pair.specs.Effects.{Becomes, Delivers, Leads, MayDeliver};
    ghost use Rattle.strm_pair.specs.Enabling.{AreFewEnabled};
    ghost use Rattle.strm_pair.specs.Pairs.{state_in, AreHeld};

    /// Keeps a book of what comes from a side.
    pub(crate) fn keep_book(&mut self, side: Side, book: Book)
        ensures { Becomes self.old self.new (with_book (direction_from side) book) }
    {
        *self.books.get_mut(side) = book;
    }

    /// Sends a message of these parts down from a side's head, with all that it gives rise to, and books their bytes as written.
    /// Without either part nothing is sent.
    #[inline(never)]
    pub fn putmsg<B: Blocks, M: OwnModule>(
        &mut self,
        store: &mut B,
        side: Side,
        prio: Prio,
        control: Option<&[u8]>,
        body: Option<&[u8]>,
        told: &mut Fates,
    ) -> Answer<u32>
        requires allowed { put_refusal prio (option_map (λ bytes. bytes.now) control) (option_map (λ bytes. bytes.now) body) ≡ None }
        requires may { MayDeliver (B.value store.old) self.old
            (WRITE_BLOCKS + put_blocks (option_map (λ bytes. bytes.now) control) (option_map (λ bytes. bytes.now) body)) }
        requires wide { IsWide M.wide (B.value store.old) }
        ensures answer { result ≡ Done }
        ensures delivers { let c = option_map (λ bytes. bytes.now) control.entry in let b = option_map (λ bytes. bytes.now) body.entry in
            let s = B.value store.old in let is = put_at M.does plain side prio c b (state_in s self.old) in
            Delivers s (B.value store.new) self.old self.new told.old told.new is.state is.gone 0 }
    {
        let Some(message) = make_message(store, prio, control, body) else {
            return Answer::Done;
        };
        let below = Spot {
            side,
            at: 1,
            way: Way::Down,
        };
        self.deliver_alone::<B, M>(store, below, message, told);
        let book = with_written(self.book_of(side), len_of(control) + len_of(body));
        self.keep_book(side, book);
        Answer::Done
    }

    /// Takes up to `cmax` bytes of the control part and up to `dmax` of the data part of the first message off a side's head into
    /// `out`, where that message is the one that is asked for.
    #[inline(never)]
    pub fn getmsg<B: Blocks>(
        &mut self,
        store: &mut B,
        side: Side,
        wanted: Wanted,
        cmax: u32,
        dmax: u32,
        out: &mut Content,
        told: &mut Fates,
    ) -> Answer<u32>
        requires held { AreHeld (B.value store.old) self.old }
        requires enabled { AreFewEnabled (state_in (B.value store.old) self.old) }
        requires fresh { out.old.items ≡ [] }
        ensures answer { reply_in result out.new.items ≡ (get_at plain side wanted cmax dmax (state_in (B.value store.old) self.old)).answer }
        ensures filled { answer_len result ≡ length out.new.items }
        ensures parts { longest_part result ≤ READ_MAX }
        ensures most { length out.new.items ≤ min cmax READ_MAX + min dmax READ_MAX }
        ensures leads { let s = B.value store.old in let is = get_at plain side wanted cmax dmax (state_in s self.old) in
            Leads s (B.value store.new) self.new told.old told.new is.state is.gone }
    {
        let most = (cmax as usize).min(READ_MAX);
        let most_data = (dmax as usize).min(READ_MAX);
        let direction = side.head().direction();
        let got = getmsg(
            store,
            &mut self.ends.get_mut(side).head.queue,
            wanted,
            most,
            most_data,
            out,
            direction,
            told,
        );
        self.let_go(side, Way::Up, 0, got.lets_go);
        Answer::Msg {
            prio: got.prio,
            control: got.control,
            body: got.body,
            more_control: got.more_control,
            more_data: got.more_data,
        }
    }

    /// How many bytes of data the first message at a side's head has, and how many messages stand there.
    #[inline(never)]
    pub fn nread<B: Blocks>(&self, store: &B, side: Side) -> Answer<u32>
        requires { AreHeld (B.value store.now) self.now }
        ensures answer { (out : List ℕ) → reply_in result out ≡ (sizes_at side (state_in (B.value store.now) self.now)).answer }
        ensures filled { answer_len result ≡ 0 }
        ensures parts { longest_part result ≡ 0 }
    {
        let waiting = self.end(side).head.nread(store);
        Answer::Sizes {
            first: waiting.first,
            messages: waiting.messages,
        }
    }
}
