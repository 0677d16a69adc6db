//! What was read in a text, and isn't kept: the flow control of a queue's bands, and its messages.

ghost use Rattle.std.specs.Prelude.{◌≡◌, ◌≤◌, ◌*◌, Some, is_some, option_map, true};
ghost use Rattle.strm_types.specs.declared.limits.TheConstants.{HIGH_PRIORITY_RANK};
ghost use Rattle.strm_image.specs.FlowTexts.{read_flows};
ghost use Rattle.strm_image.specs.Format.{gather_from};
ghost use Rattle.strm_image.specs.Loads.{add_message, no_load};
ghost use Rattle.strm_image.specs.Messages.{message_behind, next_rank};

use crate::versions::{Load, QueueKind, Version};

/// The flow control of all bands of a queue at the front of a text, which was read: it is there. So many bands are listed. In version 1
/// they can be read again with [`crate::few_flows_at`], and in version 2 one after the other with [`crate::band_behind`], from band 0 on.
#[derive(Clone, Copy)]
pub struct FlowsText<'a> {
    pub version: Version,
    pub queue: QueueKind,
    pub count: u16,
    pub text: &'a [u8],
    pub ghost there: { is_some (read_flows version queue count text.now) ≡ true },
}

/// So many messages of a queue at the front of a text, which was read: they are there, and this is what they take and hold. They
/// can be read again one after the other with [`crate::message_behind`], from the highest rank on.
#[derive(Clone, Copy)]
pub struct MessagesText<'a> {
    pub version: Version,
    pub queue: QueueKind,
    pub count: u32,
    pub text: &'a [u8],
    pub load: Load,
    pub ghost there: { option_map (λ x. x.0)
        (gather_from next_rank (message_behind version queue) add_message no_load HIGH_PRIORITY_RANK count text.now)
        ≡ Some load },
    pub ghost few: { load.blocks ≤ count * 33554432 },
    pub ghost short: { load.cells ≤ count * 8589934592 },
}
