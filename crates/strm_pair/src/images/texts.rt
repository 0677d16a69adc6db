//! The text of the messages that stand on a queue, from the blocks of its list.

ghost use Rattle.std.specs.Prelude.{◌≡◌};
ghost use Rattle.strm_image.specs.declared.versions.QueueKind.{QueueKind};
ghost use Rattle.strm_image.specs.declared.versions.Version.TheVariants.{Second};
ghost use Rattle.strm_image.specs.Messages.{messages};
ghost use Rattle.strm_image.specs.Sinks.{put};
ghost use Rattle.strm_queue.specs.Stored.{messages_on, IsReady};
ghost use Rattle.strm_pair.specs.Writings.{begun, ended, extended, part_begun, texts_of};

use strm_blocks::{Blocks, Visitor};
use strm_image::Sink;
use strm_queue::Queue;
use strm_queue::standing::sizes;
use strm_types::{Band, MsgKind};

// The text of a part that is absent.
const ABSENT: [u8; 5] = [0; 5];

// Writes the text of messages, block by block. The length of the part at the end is at a place, and grows with each block; behind a
// control part the data part is owed, until a block of it comes or the message ends.
#[derive(Drop)]
struct Writing<'a> {
    out: Sink<'a>,
    at: usize,
    length: u32,
    in_control: bool,
}

impl Writing<'_> {
    // Begins a part, where it has no byte.
    #[tactic(auto, unfolding(crate::specs::Writings::part_begun))]
    fn begin_part(&mut self)
        ensures { self.new ≡ part_begun self.old }
    {
        self.out.put(&[1]);
        self.at = self.out.place();
        self.length = 0;
        self.out.put(&[0; 4]);
    }

    // Ends a message: a data part that is owed is absent.
    fn end(&mut self)
        ensures { self.new ≡ ended self.old }
    {
        if self.in_control {
            self.out.put(&ABSENT);
            self.in_control = false;
        }
    }

    // Begins a message behind the one before it.
    fn begin(&mut self, kind: MsgKind, band: Band)
        ensures { self.new ≡ begun kind band.0 self.old }
    {
        self.end();
        self.out.put(&[kind.number(), band.0]);
        if kind.is_control_kind() {
            self.in_control = true;
        } else {
            self.out.put(&ABSENT);
        }
        self.begin_part();
    }

    // Adds bytes to the part at the end.
    #[tactic(auto, unfolding(crate::specs::Writings::extended))]
    fn extend(&mut self, bytes: &[u8])
        ensures { self.new ≡ extended bytes.now self.old }
    {
        let sum = (self.length as usize).saturating_add(bytes.len());
        self.length = sum.min(u32::MAX as usize) as u32;
        self.out.patch(self.at, &self.length.to_be_bytes());
        self.out.put(bytes);
    }
}

impl Visitor for Writing<'_> {
    ghost use Rattle.std.specs.Prelude.{true};
    ghost use Rattle.strm_pair.specs.Writings.{written};

    ghost after = { written };

    ghost goes_on = { λ w. true };

    fn see(&mut self, first: bool, kind: MsgKind, band: Band, bytes: &[u8]) -> bool {
        if first {
            self.begin(kind, band);
        } else if self.in_control && kind.is_body_kind() {
            self.in_control = false;
            self.begin_part();
        }
        self.extend(bytes);
        true
    }
}

// The messages of a queue, one behind the other.
fn put_each<'a, B: Blocks>(store: &B, queue: &Queue, out: Sink<'a>) -> Sink<'a>
    requires { IsReady (B.value store.now) queue.now }
    ensures { result ≡ put (texts_of (messages_on (B.value store.now) queue.now.list)) out.entry }
{
    store.audit();
    let mut writing = Writing {
        out,
        at: 0,
        length: 0,
        in_control: false,
    };
    store.visit(queue.list, &mut writing);
    writing.end();
    let Writing { out, .. } = writing;
    out
}

/// Writes the messages of a queue, with their number in front. The cost is two steps for each block of them.
pub fn put_messages<'a, B: Blocks>(store: &B, queue: &Queue, out: Sink<'a>) -> Sink<'a>
    requires { IsReady (B.value store.now) queue.now }
    ensures { (at : QueueKind) → result ≡ put ((messages Second at).text (messages_on (B.value store.now) queue.now.list)) out.entry }
{
    store.audit();
    let (count, _) = sizes(store, queue);
    let mut out = out;
    out.put(&(count.min(u32::MAX as usize) as u32).to_be_bytes());
    put_each(store, queue, out)
}
