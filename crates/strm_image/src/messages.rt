//! Messages as they stand in a text.

ghost use Rattle.std.specs.Prelude.{◌≡◌, ◌<◌, ◌≤◌, ◌^◌, ◌*◌, IfSome, length, option_map};
ghost use Rattle.strm_types.specs.declared.limits.TheConstants.{HIGH_PRIORITY_RANK};
ghost use Rattle.strm_types.specs.Message.{rank_of};
ghost use Rattle.strm_image.specs.Format.{Reads, gather_from};
ghost use Rattle.strm_image.specs.Loads.{add_message, begun, blocks_of, counted_of, no_load, part_blocks};
ghost use Rattle.strm_image.specs.Messages.{bands_in, bytes_in, is_ioctl_kind, message, message_behind, messages, next_rank, part, parts_fit, stands_at};
ghost use Rattle.strm_image.specs.Texts.{IsGood, message_now, messages_now, parts_now};

use crate::codes::{flag_at, kind_at};
use crate::fields::{byte_at, bytes_at, u32_at};
use crate::passed::MessagesText;
use crate::versions::{FIRST_BANDS, Load, QueueKind, Version};
use strm_types::{BANDS, BLOCK_SIZE, HIGH_PRIORITY_RANK, MsgKind};

// How many bytes the header of an ioctl has.
const IOCTL_HEADER: usize = 16;

/// A message, where it stands in a text: its kind, its band, its control part and its data part. The bytes of kinds without parts
/// stand in the data part, those of an ioctl behind its header of 16 bytes.
#[derive(Clone, Copy)]
pub struct MessageText<'a> {
    pub kind: MsgKind,
    pub band: u8,
    pub control: Option<&'a [u8]>,
    pub body: Option<&'a [u8]>,
}

// A part of a message, which may be absent.
#[tactic(auto, unfolding(crate::specs::Messages::part))]
fn part_at(text: &[u8]) -> Option<(Option<&[u8]>, &[u8])>
    ensures read { Reads (λ x. (option_map (λ p. p.now) x.0, x.1.now)) result (part.read text.now) }
    ensures short { IfSome result (λ x. length (bytes_in (option_map (λ p. p.now) x.0)) < 2 ^ 32) }
{
    let (there, rest) = flag_at(text)?;
    let (length, rest) = u32_at(rest)?;
    let (part, rest) = bytes_at(rest, length as usize)?;
    if !there && !part.is_empty() {
        return None;
    }
    Some((if there { Some(part) } else { None }, rest))
}

impl Version {
    /// How many bands its messages have.
    pub fn bands(self) -> usize
        ensures { result ≡ bands_in self }
    {
        match self {
            Version::First => FIRST_BANDS,
            Version::Second => BANDS,
        }
    }
}

// Whether a kind is that of a message about an ioctl.
fn is_ioctl_kind(kind: MsgKind) -> bool
    ensures { result ≡ is_ioctl_kind kind }
{
    matches!(kind, MsgKind::Ioctl | MsgKind::Iocack | MsgKind::Iocnak)
}

impl QueueKind {
    /// Whether messages of a kind stand on the queue.
    #[tactic(auto, unfolding(strm_types::specs::Drivers::crosses, strm_types::specs::Flush::is_data_kind))]
    pub fn has(self, kind: MsgKind) -> bool
        ensures { result ≡ stands_at self kind }
    {
        match self {
            QueueKind::Head => kind.is_data_kind(),
            QueueKind::ModuleRead => matches!(kind, MsgKind::Data | MsgKind::Proto),
            QueueKind::ModuleWrite => {
                matches!(kind, MsgKind::Data | MsgKind::Proto | MsgKind::Ioctl)
            }
            QueueKind::Driver => matches!(
                kind,
                MsgKind::Data
                    | MsgKind::Proto
                    | MsgKind::Ioctl
                    | MsgKind::Iocack
                    | MsgKind::Iocnak
                    | MsgKind::Pcproto
                    | MsgKind::Stop
                    | MsgKind::Start
            ),
        }
    }
}

// How many bytes a part has, none where it is absent.
fn length_of(part: Option<&[u8]>) -> usize
    ensures { result ≡ length (bytes_in (option_map (λ p. p.now) part.entry)) }
{
    match part {
        None => 0,
        Some(bytes) => bytes.len(),
    }
}

// How many blocks so many bytes begin.
fn begun(bytes: usize) -> usize
    requires { bytes < 2 ^ 32 }
    ensures value { result ≡ begun bytes }
    ensures few { result ≤ 16777216 }
{
    bytes.div_ceil(BLOCK_SIZE)
}

// How many blocks a part takes: one for each begun 256 bytes, at least one.
fn part_blocks(part: Option<&[u8]>) -> usize
    requires { length (bytes_in (option_map (λ p. p.now) part)) < 2 ^ 32 }
    ensures value { result ≡ part_blocks (option_map (λ p. p.now) part.entry) }
    ensures few { result ≤ 16777216 }
{
    match part {
        None => 0,
        Some(bytes) => begun(bytes.len()).max(1),
    }
}

impl<'a> MessageText<'a> {
    // Whether the parts are those of a message of a version.
    fn fits(&self, version: Version) -> bool
        ensures { result ≡ parts_fit version (parts_now self.now) }
    {
        let has_control = self.kind.is_control_kind();
        let length = length_of(self.body);
        usize::from(self.band) < version.bands()
            && (!self.kind.is_high_priority() || self.band == 0)
            && has_control == self.control.is_some()
            && (has_control || self.body.is_some())
            && (!is_ioctl_kind(self.kind) || (16..=272).contains(&length))
    }

    /// The rank of the message: above all bands for high priority, else its band.
    #[tactic(auto, unfolding(strm_types::specs::Message::rank_of))]
    pub fn rank(&self) -> usize
        ensures { result ≡ rank_of (message_now self.now) }
    {
        if self.kind.is_high_priority() {
            HIGH_PRIORITY_RANK
        } else {
            usize::from(self.band)
        }
    }

    // How many blocks of each kind the message takes.
    fn blocks(&self, version: Version) -> usize
        requires { IsGood version self.now }
        ensures value { result ≡ blocks_of (message_now self.now) }
        ensures few { result ≤ 33554432 }
    {
        if is_ioctl_kind(self.kind) {
            1 + begun(length_of(self.body) - IOCTL_HEADER)
        } else {
            part_blocks(self.control) + part_blocks(self.body)
        }
    }

    // How many of its bytes a ledger counts.
    fn cells(&self, version: Version) -> usize
        requires { IsGood version self.now }
        ensures value { result ≡ counted_of (message_now self.now) }
        ensures few { result ≤ 8589934592 }
    {
        if self.kind.is_data_kind() {
            length_of(self.control) + length_of(self.body)
        } else {
            0
        }
    }
}

// The message at the front of a text.
#[tactic(auto, unfolding(crate::specs::Messages::message))]
fn message_at(text: &[u8], version: Version) -> Option<(MessageText<'_>, &[u8])>
    ensures read { Reads (λ x. (message_now x.0, x.1.now)) result ((message version).read text.now) }
    ensures good { IfSome result (λ x. IsGood version x.0) }
{
    let (kind, rest) = kind_at(text)?;
    let (band, rest) = byte_at(rest)?;
    let (control, rest) = part_at(rest)?;
    let (body, rest) = part_at(rest)?;
    let message = MessageText {
        kind,
        band,
        control,
        body,
    };
    if !message.fits(version) {
        return None;
    }
    Some((message, rest))
}

/// The message at the front of a text, where it may stand on a queue behind one of a rank.
#[tactic(auto, unfolding(crate::specs::Messages::message_behind))]
pub fn message_behind(
    text: &[u8],
    version: Version,
    queue: QueueKind,
    rank: usize,
) -> Option<(MessageText<'_>, &[u8])>
    ensures read { Reads (λ x. (message_now x.0, x.1.now)) result ((message_behind version queue rank).read text.now) }
    ensures good { IfSome result (λ x. IsGood version x.0) }
{
    let (message, rest) = message_at(text, version)?;
    if !queue.has(message.kind) || message.rank() > rank {
        return None;
    }
    Some((message, rest))
}

// Passes so many messages of a queue, and counts what they take and hold.
fn pass(text: &[u8], version: Version, queue: QueueKind, count: u32) -> Option<(Load, &[u8])>
    ensures passed { Reads (λ x. (x.0, x.1.now)) result
        (gather_from next_rank (message_behind version queue) add_message no_load HIGH_PRIORITY_RANK count text.now) }
    ensures few { IfSome result (λ x. x.0.blocks ≤ count * 33554432) }
    ensures short { IfSome result (λ x. x.0.cells ≤ count * 8589934592) }
{
    let mut rest = text;
    let mut rank = HIGH_PRIORITY_RANK;
    let mut blocks = 0;
    let mut cells = 0;
    for _ in 0..count {
        let (message, after) = message_behind(rest, version, queue, rank)?;
        rank = message.rank();
        blocks += message.blocks(version);
        cells += message.cells(version) as u128;
        rest = after;
    }
    Some((Load { blocks, cells }, rest))
}

/// The messages of a queue at the front of a text.
#[tactic(auto, unfolding(crate::specs::Messages::messages))]
pub fn messages_at(
    text: &[u8],
    version: Version,
    queue: QueueKind,
) -> Option<(MessagesText<'_>, &[u8])>
    ensures { Reads (λ x. (messages_now x.0, x.1.now)) result ((messages version queue).read text.now) }
{
    let (count, text) = u32_at(text)?;
    let (load, rest) = pass(text, version, queue, count)?;
    let messages = MessagesText {
        version,
        queue,
        count,
        text,
        load,
    };
    Some((messages, rest))
}
