//! Ioctls on a side's stream, and the signals that wait at its head (ioctl(2), streamio(7I): I_STR).

ghost use Rattle.std.specs.Prelude.{ℕ, ◌≡◌, ◌≤◌, ◌<◌, List, [], length};
ghost use Rattle.strm_types.specs.declared.limits.TheConstants.{IOCTL_BLOCKS, IOCTL_END, IOCTL_MAX, SIGNALS_MAX};
ghost use Rattle.strm_types.specs.Cells.{plain};
ghost use Rattle.strm_laws.specs.Calls.{group_at, ioctl_begun, ioctl_called, ioctl_sent, ioctl_told, signals_told};
ghost use Rattle.strm_types.specs.Dropped.{is_met, number_sought};
ghost use Rattle.strm_types.specs.Journal.{answer_len, reply_in};
ghost use Rattle.strm_types.specs.Message.{Message};
ghost use Rattle.strm_laws.specs.Pushes.{ioctl_dropped};
ghost use Rattle.strm_laws.specs.State.{stream};
ghost use Rattle.strm_blocks.specs.Blocks.{StoreValue};
ghost use Rattle.strm_frame.specs.Hands.{IsWide};

use crate::streams::Streams;
use strm_blocks::Blocks;
use strm_head::make_ioctl;
use strm_own::OwnModule;
use strm_types::{Answer, Content, Fates, Ioc, Side, Spot, Way, asks_group};

impl Streams {
    ghost use Rattle.strm_pair.specs.Effects.{Becomes, Delivers, MayDeliver};
    ghost use Rattle.strm_pair.specs.Pairs.{state_in, AreHeld};

    // The ioctl of the next number is under way on a side's stream, and waits for its answer.
    fn begin_ioctl(&mut self, side: Side, command: u32)
        requires { self.old.next_ioctl < IOCTL_END }
        ensures { Becomes self.old self.new (ioctl_begun side command) }
    {
        let number = self.next_ioctl;
        self.next_ioctl = number + 1;
        self.ends.get_mut(side).head.begin_ioctl(number, command);
    }

    // The ioctl that waits on a side's stream ends as refused, where its M_IOCTL was met among messages that go with a module.
    pub(crate) fn drop_ioctl(&mut self, side: Side, met: bool)
        ensures state { (s : StoreValue) (ms : List (Message ℕ)) → met ≡ is_met (number_sought (stream side (state_in s self.old)).head.ioctl) ms →
            state_in s self.new ≡ ioctl_dropped side ms (state_in s self.old) }
        ensures held { (s : StoreValue) → AreHeld s self.old → AreHeld s self.new }
    {
        self.ends.get_mut(side).head.drop_ioctl(met);
    }

    // An ioctl of the next number is under way, and its M_IOCTL goes down from a side's head, with all that it gives rise to.
    fn send_ioctl<B: Blocks, M: OwnModule>(
        &mut self,
        store: &mut B,
        side: Side,
        command: u32,
        body: &[u8],
        told: &mut Fates,
    )
        requires may { MayDeliver (B.value store.old) self.old IOCTL_BLOCKS }
        requires small { length body.now ≤ IOCTL_MAX }
        requires numbered { self.old.next_ioctl < IOCTL_END }
        requires wide { IsWide M.wide (B.value store.old) }
        ensures { let s = B.value store.old in let is = ioctl_sent M.does plain side command body.now (state_in s self.old) in
            Delivers s (B.value store.new) self.old self.new told.old told.new is.state is.gone 30 }
    {
        let message = make_ioctl(store, Ioc::asking(command, self.next_ioctl), body);
        self.begin_ioctl(side, command);
        let below = Spot {
            side,
            at: 1,
            way: Way::Down,
        };
        self.deliver_alone::<B, M>(store, below, message, told);
    }

    /// Tells what became of the ioctl under way on a side's stream, once: its answer, with its bytes in `out`, or its number
    /// while it waits.
    #[inline(never)]
    pub fn tell_ioctl(&mut self, side: Side, out: &mut Content) -> Answer<u32>
        requires fresh { out.old.items ≡ [] }
        ensures answer { (s : StoreValue) → reply_in result out.new.items ≡ (ioctl_told side (state_in s self.old)).answer }
        ensures filled { answer_len result ≡ length out.new.items }
        ensures content { length out.new.items ≤ IOCTL_MAX }
        ensures becomes { Becomes self.old self.new (λ st. (ioctl_told side st).state) }
    {
        self.ends.get_mut(side).head.tell_ioctl(out)
    }

    // The slave's head tells or sets the foreground process group, under the next number.
    fn tell_group(
        &mut self,
        side: Side,
        command: u32,
        body: &[u8],
        out: &mut Content,
    ) -> Answer<u32>
        requires numbered { self.old.next_ioctl < IOCTL_END }
        requires fresh { out.old.items ≡ [] }
        ensures answer { (s : StoreValue) → reply_in result out.new.items ≡ (group_at side command body.now (state_in s self.old)).answer }
        ensures filled { answer_len result ≡ length out.new.items }
        ensures content { length out.new.items ≤ IOCTL_MAX }
        ensures becomes { Becomes self.old self.new (λ st. (group_at side command body.now st).state) }
    {
        self.next_ioctl += 1;
        self.ends.get_mut(side).head.tell_group(command, body, out)
    }

    /// An ioctl of the next number: the slave's head answers those of the foreground process group. Else the command is sent down from the
    /// side's head, with these bytes, and its answer is told if it came at once, else its number.
    #[inline(never)]
    pub fn ioctl<B: Blocks, M: OwnModule>(
        &mut self,
        store: &mut B,
        side: Side,
        command: u32,
        body: &[u8],
        out: &mut Content,
        told: &mut Fates,
    ) -> Answer<u32>
        requires may { MayDeliver (B.value store.old) self.old IOCTL_BLOCKS }
        requires small { length body.now ≤ IOCTL_MAX }
        requires numbered { self.old.next_ioctl < IOCTL_END }
        requires fresh { out.old.items ≡ [] }
        requires wide { IsWide M.wide (B.value store.old) }
        ensures answer { reply_in result out.new.items
            ≡ (ioctl_called M.does plain side command body.now (state_in (B.value store.old) self.old)).answer }
        ensures filled { answer_len result ≡ length out.new.items }
        ensures content { length out.new.items ≤ IOCTL_MAX }
        ensures delivers { let s = B.value store.old in let is = ioctl_called M.does plain side command body.now (state_in s self.old) in
            Delivers s (B.value store.new) self.old self.new told.old told.new is.state is.gone 30 }
    {
        if asks_group(side, command) {
            return self.tell_group(side, command, body, out);
        }
        self.send_ioctl::<B, M>(store, side, command, body, told);
        self.tell_ioctl(side, out)
    }

    /// Hands out the signals that wait at a side's head, in `out`.
    #[inline(never)]
    pub fn take_signals(&mut self, side: Side, out: &mut Content) -> Answer<u32>
        requires fresh { out.old.items ≡ [] }
        ensures answer { (s : StoreValue) → reply_in result out.new.items ≡ (signals_told side (state_in s self.old)).answer }
        ensures filled { answer_len result ≡ length out.new.items }
        ensures content { length out.new.items ≤ SIGNALS_MAX }
        ensures becomes { Becomes self.old self.new (λ st. (signals_told side st).state) }
    {
        self.ends.get_mut(side).head.take_signals(out);
        Answer::Signals(out.len() as u32)
    }
}
