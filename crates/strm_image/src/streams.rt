//! Streams as they stand in a text.

ghost use Rattle.std.specs.Prelude.{◌≡◌};
ghost use Rattle.strm_types.specs.Queue.{is_none_left};
ghost use Rattle.strm_types.specs.Slots.{map_slot};
ghost use Rattle.strm_image.specs.declared.versions.SlotKind.TheVariants as slots;
ghost use Rattle.strm_image.specs.Format.{Reads, bytes_of, counted, only, u32};
ghost use Rattle.strm_image.specs.Streams.{are_signals, bits, head_bits, is_answer, laid, signals, slot, slot_body, slot_kind};
ghost use Rattle.strm_image.specs.StreamTexts.{bits_now, laid_now};

use crate::codes::{control_mode_at, flag_at, read_mode_at};
use crate::fields::{byte_at, bytes_at, u32_at};
use crate::modules::{ModuleText, modules_at};
use crate::queues::{QueueText, queues_at};
use crate::versions::{QueueKind, SlotKind, Version};
use arrayvec::ArrayVec;
use strm_types::{ControlMode, IOCTL_MAX, MODULES, ReadMode, SIGNAL_LAST, Slot};

/// The flags of a head: whether an M_HANGUP came, whether TOSTOP is set, and the foreground group, 0 where there is none.
#[derive(Clone, Copy)]
pub struct HeadBits {
    pub hung_up: bool,
    pub tostop: bool,
    pub group: u32,
}

/// A stream, where it stands in a text.
#[derive(Drop)]
pub struct StreamText<'a> {
    pub read_mode: ReadMode,
    pub control_mode: ControlMode,
    pub bits: HeadBits,
    pub signals: &'a [u8],
    pub slot: Slot<&'a [u8]>,
    pub modules: ArrayVec<ModuleText<'a>, MODULES>,
    pub head: QueueText<'a>,
    pub driver: QueueText<'a>,
}

// Whether these are signals, each once.
fn are_signals(numbers: &[u8]) -> bool
    ensures { result ≡ are_signals numbers.now }
{
    for i in 0..numbers.len() {
        let number = numbers[i];
        if number < 1 || usize::from(number) > SIGNAL_LAST || numbers[..i].contains(&number) {
            return false;
        }
    }
    true
}

// The signals that wait.
#[tactic(auto, unfolding(crate::specs::Streams::signals))]
fn signals_at(text: &[u8]) -> Option<(&[u8], &[u8])>
    ensures { Reads (λ x. (x.0.now, x.1.now)) result (signals.read text.now) }
{
    let (count, rest) = byte_at(text)?;
    let (numbers, rest) = bytes_at(rest, usize::from(count))?;
    if !are_signals(numbers) {
        return None;
    }
    Some((numbers, rest))
}

#[tactic(auto, unfolding(crate::specs::Streams::slot_kind))]
fn slot_kind_at(text: &[u8]) -> Option<(SlotKind, &[u8])>
    ensures { Reads (λ x. (x.0, x.1.now)) result (slot_kind.read text.now) }
{
    let (code, rest) = byte_at(text)?;
    let kind = match code {
        0 => SlotKind::Free,
        1 => SlotKind::Waiting,
        2 => SlotKind::Answered,
        _ => return None,
    };
    Some((kind, rest))
}

// An ioctl that has no answer.
fn waiting_at(text: &[u8]) -> Option<(Slot<&[u8]>, &[u8])>
    ensures { Reads (λ x. (map_slot (λ b. b.now) x.0, x.1.now)) result ((slot_body slots.Waiting).read text.now) }
{
    let (number, rest) = u32_at(text)?;
    let (command, rest) = u32_at(rest)?;
    Some((Slot::Waiting { number, command }, rest))
}

// The bytes of an answer, 256 at most.
fn answer_at(text: &[u8]) -> Option<(&[u8], &[u8])>
    ensures { Reads (λ x. (x.0.now, x.1.now)) result ((counted (only is_answer u32) bytes_of).read text.now) }
{
    let (length, rest) = u32_at(text)?;
    if length as usize > IOCTL_MAX {
        return None;
    }
    bytes_at(rest, length as usize)
}

// An ioctl that was answered.
fn answered_at(text: &[u8]) -> Option<(Slot<&[u8]>, &[u8])>
    ensures { Reads (λ x. (map_slot (λ b. b.now) x.0, x.1.now)) result ((slot_body slots.Answered).read text.now) }
{
    let (number, rest) = u32_at(text)?;
    let (command, rest) = u32_at(rest)?;
    let (acked, rest) = flag_at(rest)?;
    let (error, rest) = u32_at(rest)?;
    let (body, rest) = answer_at(rest)?;
    let slot = Slot::Answered {
        number,
        command,
        acked,
        error,
        body,
    };
    Some((slot, rest))
}

// The ioctl that is under way.
#[tactic(auto, unfolding(crate::specs::Streams::slot))]
fn slot_at(text: &[u8]) -> Option<(Slot<&[u8]>, &[u8])>
    ensures { Reads (λ x. (map_slot (λ b. b.now) x.0, x.1.now)) result (slot.read text.now) }
{
    let (kind, rest) = slot_kind_at(text)?;
    match kind {
        SlotKind::Free => Some((Slot::Free, rest)),
        SlotKind::Waiting => waiting_at(rest),
        SlotKind::Answered => answered_at(rest),
    }
}

// The flags, and whether a group follows.
#[tactic(auto, unfolding(crate::specs::Streams::bits, crate::specs::Streams::bits_code))]
fn bits_at(text: &[u8]) -> Option<((bool, (bool, bool)), &[u8])>
    ensures { Reads (λ x. (x.0, x.1.now)) result (bits.read text.now) }
{
    let (code, rest) = byte_at(text)?;
    let bits = match code {
        0 => (false, (false, false)),
        1 => (true, (false, false)),
        2 => (false, (true, false)),
        3 => (true, (true, false)),
        4 => (false, (false, true)),
        5 => (true, (false, true)),
        6 => (false, (true, true)),
        7 => (true, (true, true)),
        _ => return None,
    };
    Some((bits, rest))
}

// The flags of a head, with the group behind them.
#[tactic(auto, unfolding(crate::specs::Streams::head_bits))]
fn head_bits_at(text: &[u8], is_slave: bool) -> Option<(HeadBits, &[u8])>
    ensures { Reads (λ x. (bits_now x.0, x.1.now)) result ((head_bits is_slave).read text.now) }
{
    let ((hung_up, (tostop, follows)), rest) = bits_at(text)?;
    if !is_slave && follows {
        return None;
    }
    if !follows {
        let bits = HeadBits {
            hung_up,
            tostop,
            group: 0,
        };
        return Some((bits, rest));
    }
    let (group, rest) = u32_at(rest)?;
    if group < 1 {
        return None;
    }
    let bits = HeadBits {
        hung_up,
        tostop,
        group,
    };
    Some((bits, rest))
}

/// A stream at the front of a text.
pub fn stream_at(text: &[u8], version: Version, is_slave: bool) -> Option<(StreamText<'_>, &[u8])>
    ensures { Reads (λ x. (laid_now x.0, x.1.now)) result ((laid version is_slave).read text.now) }
{
    let (read_mode, rest) = read_mode_at(text)?;
    let (control_mode, rest) = control_mode_at(rest)?;
    let (bits, rest) = head_bits_at(rest, is_slave)?;
    let (signals, rest) = signals_at(rest)?;
    let (slot, rest) = slot_at(rest)?;
    let (modules, rest) = modules_at(rest, version)?;
    let ((head, driver), rest) = queues_at(rest, version, QueueKind::Head, QueueKind::Driver)?;
    let found = StreamText {
        read_mode,
        control_mode,
        bits,
        signals,
        slot,
        modules,
        head,
        driver,
    };
    Some((found, rest))
}

/// Whether no signal waits.
pub fn is_silent(numbers: &[u8]) -> bool
    ensures { result ≡ is_none_left numbers.now }
{
    matches!(numbers, [])
}
