//! The enabled queues as they stand in a text.

ghost use Rattle.std.specs.Prelude.{◌≡◌, []};
ghost use Rattle.strm_types.specs.Names as names;
ghost use Rattle.strm_image.specs.Format.{Reads, at_end, gather_from};
ghost use Rattle.strm_image.specs.Image.{enabled, enabled_behind, next_enabled, queue_name};

use crate::codes::{place_at, side_at, way_at};
use crate::fields::byte_at;
use arrayvec::ArrayVec;
use strm_types::QueueName;

/// How many names a text can list at most.
pub const NAMES: usize = 255;

// The name of a queue.
#[tactic(auto, unfolding(crate::specs::Image::queue_name))]
fn name_at(text: &[u8]) -> Option<(QueueName, &[u8])>
    ensures { Reads (λ x. (x.0, x.1.now)) result (queue_name.read text.now) }
{
    let (side, rest) = side_at(text)?;
    let (place, rest) = place_at(rest)?;
    let (way, rest) = way_at(rest)?;
    Some((QueueName { side, place, way }, rest))
}

// Whether a queue is enabled.
fn is_enabled(before: &[QueueName], name: &QueueName) -> bool
    ensures { result ≡ names.is_enabled name.now before.now }
{
    for other in before {
        if other.is_same(*name) {
            return true;
        }
    }
    false
}

// A queue with a service procedure that isn't enabled before.
#[tactic(auto, unfolding(crate::specs::Image::enabled_behind))]
fn enabled_behind<'a>(text: &'a [u8], before: &[QueueName]) -> Option<(QueueName, &'a [u8])>
    ensures { Reads (λ x. (x.0, x.1.now)) result ((enabled_behind before.now).read text.now) }
{
    let (name, rest) = name_at(text)?;
    if !name.has_service() || is_enabled(before, &name) {
        return None;
    }
    Some((name, rest))
}

// So many names.
fn pass_names(text: &[u8], count: u8) -> Option<(ArrayVec<QueueName, NAMES>, &[u8])>
    ensures { Reads (λ x. (x.0.items, x.1.now)) result
        (gather_from next_enabled enabled_behind at_end [] [] count text.now) }
{
    let mut found = ArrayVec::new();
    let mut rest = text;
    for _ in 0..count {
        let (name, after) = enabled_behind(rest, found.as_slice())?;
        found.push(name);
        rest = after;
    }
    Some((found, rest))
}

/// The enabled queues in order of enabling, each once and with a service procedure.
#[tactic(auto, unfolding(crate::specs::Image::enabled))]
pub fn enabled_at(text: &[u8]) -> Option<(ArrayVec<QueueName, NAMES>, &[u8])>
    ensures { Reads (λ x. (x.0.items, x.1.now)) result (enabled.read text.now) }
{
    let (count, rest) = byte_at(text)?;
    pass_names(rest, count)
}
