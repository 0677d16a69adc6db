//! The flow control of a queue's bands, as both versions list it.

ghost use Rattle.std.specs.Prelude.{◌≡◌, ◌<◌, ◌≤◌, IfSome, map};
ghost use Rattle.std.specs.List.{All};
ghost use Rattle.strm_image.specs.FlowTexts.{IsMarked, flow_now};
ghost use Rattle.strm_image.specs.Format.{Reads, gather_from, keep};
ghost use Rattle.strm_image.specs.Queues.{few_flows, first_flow, flow, flows, listed_behind, next_band, same_flow};
ghost use Rattle.strm_image.specs.Texts.{flows_now};

use crate::codes::flag_at;
use crate::fields::{byte_at, u16_at, u32_at};
use crate::flows::Flow;
use crate::passed::FlowsText;
use crate::versions::{FIRST_BANDS, QueueKind, Version};
use strm_types::BANDS;

// The flow control of a band.
#[tactic(auto, unfolding(crate::specs::Queues::flow))]
fn flow_at(text: &[u8]) -> Option<(Flow, &[u8])>
    ensures read { Reads (λ x. (flow_now x.0, x.1.now)) result (flow.read text.now) }
    ensures marked { IfSome result (λ x. IsMarked x.0) }
{
    let (high, rest) = u32_at(text)?;
    let (low, rest) = u32_at(rest)?;
    let (want_write, rest) = flag_at(rest)?;
    if high < 1 || low > high {
        return None;
    }
    let flow = Flow {
        high,
        low,
        want_write,
    };
    Some((flow, rest))
}

/// The flow control of the first bands at the front of a text, as version 1 lists it.
pub fn few_flows_at(text: &[u8]) -> Option<([Flow; FIRST_BANDS], &[u8])>
    ensures read { Reads (λ x. (map flow_now x.0, x.1.now)) result (few_flows.read text.now) }
    ensures marked { IfSome result (λ x. All IsMarked x.0) }
{
    let mut flows = [Flow {
        high: 1,
        low: 0,
        want_write: false,
    }; FIRST_BANDS];
    let mut rest = text;
    for i in 0..FIRST_BANDS {
        let (flow, after) = flow_at(rest)?;
        flows[i] = flow;
        rest = after;
    }
    Some((flows, rest))
}

impl QueueKind {
    /// The flow control of each band as a queue is made.
    pub fn first_flow(self) -> Flow
        ensures { flow_now result ≡ first_flow self }
    {
        let (high, low) = match self {
            QueueKind::Head => (5120, 1024),
            QueueKind::ModuleRead | QueueKind::ModuleWrite | QueueKind::Driver => (512, 128),
        };
        Flow {
            high,
            low,
            want_write: false,
        }
    }
}

impl Flow {
    /// Whether two are one.
    pub fn is(&self, other: &Flow) -> bool
        ensures { result ≡ same_flow (flow_now self.now) (flow_now other.now) }
    {
        self.high == other.high && self.low == other.low && self.want_write == other.want_write
    }
}

/// A band that version 2 lists behind others, from one up, where the others are as at first.
#[tactic(auto, unfolding(crate::specs::Queues::listed_behind))]
pub fn band_behind<'a>(text: &'a [u8], first: &Flow, from: usize) -> Option<((u8, Flow), &'a [u8])>
    ensures read { Reads (λ x. ((x.0.0, flow_now x.0.1), x.1.now)) result ((listed_behind (flow_now first.now) from).read text.now) }
    ensures behind { IfSome result (λ x. from ≤ x.0.0) }
    ensures within { IfSome result (λ x. x.0.0 < BANDS) }
    ensures marked { IfSome result (λ x. IsMarked x.0.1) }
{
    let (band, rest) = byte_at(text)?;
    let (flow, rest) = flow_at(rest)?;
    if usize::from(band) < from || usize::from(band) >= BANDS || flow.is(first) {
        return None;
    }
    Some(((band, flow), rest))
}

// Passes so many bands that are listed.
fn pass_listed<'a>(text: &'a [u8], count: u16, first: &Flow) -> Option<&'a [u8]>
    ensures { Reads (λ x. (tt, x.now)) result (gather_from next_band (listed_behind (flow_now first.now)) keep tt 0 count text.now) }
{
    let mut rest = text;
    let mut from = 0;
    for _ in 0..count {
        let ((band, _), after) = band_behind(rest, first, from)?;
        from = usize::from(band) + 1;
        rest = after;
    }
    Some(rest)
}

// All bands, where those are listed that aren't as at first.
fn listed_flows_at(text: &[u8], queue: QueueKind) -> Option<(FlowsText<'_>, &[u8])>
    ensures { Reads (λ x. (flows_now x.0, x.1.now)) result ((flows Version.Second queue).read text.now) }
{
    let (count, text) = u16_at(text)?;
    let rest = pass_listed(text, count, &queue.first_flow())?;
    let flows = FlowsText {
        version: Version::Second,
        queue,
        count,
        text,
    };
    Some((flows, rest))
}

/// The flow control of all bands of a queue at the front of a text.
#[tactic(auto, unfolding(crate::specs::Queues::flows))]
pub fn flows_at(text: &[u8], version: Version, queue: QueueKind) -> Option<(FlowsText<'_>, &[u8])>
    ensures { Reads (λ x. (flows_now x.0, x.1.now)) result ((flows version queue).read text.now) }
{
    match version {
        Version::First => {
            let (_, rest) = few_flows_at(text)?;
            let flows = FlowsText {
                version,
                queue,
                count: FIRST_BANDS as u16,
                text,
            };
            Some((flows, rest))
        }
        Version::Second => listed_flows_at(text, queue),
    }
}
