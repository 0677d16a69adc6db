//! What a module looks for in the messages that stand on its queues, as it says whether they may go on.

ghost use Rattle.std.specs.Prelude.{◌≡◌};
ghost use Rattle.std.specs.List.{list_any};
ghost use Rattle.strm_types.specs.Commands.{is_ioctl};
ghost use Rattle.strm_queue.specs.Stored.{IsReady, messages_on};
ghost use Rattle.strm_own.specs.Looking.{has_byte};

use strm_blocks::{Blocks, Visitor};
use strm_frame::ioctls::is_ioctl;
use strm_queue::Queue;
use strm_types::{Band, MsgKind};

// Sees whether a byte stands in messages with parts: it is told of the blocks, of which the first says whether its message has parts.
#[derive(Drop)]
struct Seeker {
    byte: u8,
    parts: bool,
    found: bool,
}

impl Visitor for Seeker {
    ghost use Rattle.std.specs.Prelude.{not};
    ghost use Rattle.strm_own.specs.Looking.{sought};

    ghost after = { sought };

    ghost goes_on = { λ v. not v.found };

    fn see(&mut self, first: bool, kind: MsgKind, _band: Band, bytes: &[u8]) -> bool {
        if first {
            self.parts = kind.is_data_kind();
        }
        self.found |= self.parts & bytes.contains(&self.byte);
        !self.found
    }
}

/// Whether a byte stands on a queue: in the parts of an M_DATA, M_PROTO or M_PCPROTO. The cost is a step for each block up to the one where it stands,
/// and for each byte of these. How many bytes stand there `strm_queue::standing::total` tells.
pub fn has_byte<B: Blocks>(store: &B, queue: &Queue, byte: u8) -> bool
    requires { IsReady (B.value store.now) queue.now }
    ensures { result ≡ has_byte byte (messages_on (B.value store.now) queue.now.list) }
{
    let mut seeker = Seeker {
        byte,
        parts: false,
        found: false,
    };
    store.visit(queue.list, &mut seeker);
    seeker.found
}

// Sees whether an M_IOCTL stands on a list.
#[derive(Drop)]
struct Asker {
    found: bool,
}

impl Visitor for Asker {
    ghost use Rattle.std.specs.Prelude.{not, if◌then◌else◌};
    ghost use Rattle.strm_types.specs.Commands.{is_ioctl};

    ghost after = { λ v b. if b.first then record { found = is_ioctl b.kind } else v };

    ghost goes_on = { λ v. not v.found };

    fn see(&mut self, first: bool, kind: MsgKind, _band: Band, _bytes: &[u8]) -> bool {
        if first {
            self.found = is_ioctl(kind);
        }
        !self.found
    }
}

/// Whether an M_IOCTL stands on a queue. The cost is a step for each block of the messages in front of the first one.
pub fn has_ioctl<B: Blocks>(store: &B, queue: &Queue) -> bool
    ensures { result ≡ list_any (λ m. is_ioctl m.kind) (messages_on (B.value store.now) queue.now.list) }
{
    store.audit();
    let mut asker = Asker { found: false };
    store.visit(queue.list, &mut asker);
    asker.found
}
