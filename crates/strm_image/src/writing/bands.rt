//! The flow control of a queue's bands, of which those are listed that aren't as a queue is made.

ghost use Rattle.std.specs.Prelude.{◌≡◌, ◌≤◌, IfSome, List, length, slice_index_or};
ghost use Rattle.std.specs.List.{flat_map};
ghost use Rattle.strm_types.specs.declared.limits.TheConstants.{BANDS};
ghost use Rattle.strm_types.specs.Queue as plain;
ghost use Rattle.strm_image.specs.FlowTexts.{flow_now};
ghost use Rattle.strm_image.specs.Format.{byte, ◌then◌};
ghost use Rattle.strm_image.specs.Queues.{flow, flows, listed, no_flow, IsNoneFrom, RestAbove};
ghost use Rattle.strm_image.specs.Sinks.{put};
ghost use Rattle.strm_image.specs.declared.versions.Version.TheVariants.{Second};

use crate::flows::Flow;
use crate::sink::Sink;
use crate::versions::QueueKind;
use crate::writing::codes::put_flag;
use crate::writing::fields::{put_u8, put_u16, put_u32};
use strm_types::{BANDS, Marks};

/// What has the flow control of all bands of a queue.
pub trait Bands {
    /// That of the bands from 0 up.
    ghost flows: { Self → List plain.Flow };

    /// That of a band.
    fn flow(&self, band: u8) -> Flow
        ensures flow { flow_now result ≡ slice_index_or (flows self.now) band no_flow }
        ensures all { length (flows self.now) ≡ BANDS };

    /// The marks of all bands above 0, where they have the same ones and no writer waits for any of them. Where it tells none each
    /// band is asked.
    fn shared_above(&self) -> Option<Marks>
        ensures shared { IfSome result (λ marks. RestAbove marks (flows self.now)) }
        ensures all { length (flows self.now) ≡ BANDS };
}

// The flow control of a band.
#[tactic(auto, unfolding(crate::specs::Queues::flow), using(crate::proofs::SinkRows::put_both))]
fn put_flow(out: &mut Sink, own: &Flow)
    ensures { out.new ≡ put (flow.text (flow_now own.now)) out.old }
{
    put_u32(out, own.high);
    put_u32(out, own.low);
    put_flag(out, own.want_write);
}

// From which band on none is listed.
fn end_of<B: Bands>(bands: &B, first: &Flow) -> usize
    ensures none { IsNoneFrom (flow_now first.now) result (B.flows bands.now) }
    ensures few { result ≤ BANDS }
{
    let Some(marks) = bands.shared_above() else {
        return BANDS;
    };
    let all = Flow {
        high: marks.high,
        low: marks.low,
        want_write: false,
    };
    if all.is(first) { 1 } else { BANDS }
}

// How many bands are listed, where none is from one on.
#[tactic(auto, using(crate::proofs::WrittenRows::listed_step))]
fn count_listed<B: Bands>(bands: &B, first: &Flow, end: usize) -> usize
    requires none { IsNoneFrom (flow_now first.now) end (B.flows bands.now) }
    requires few { end ≤ BANDS }
    ensures value { result ≡ length (listed (flow_now first.now) 0 (B.flows bands.now)) }
    ensures few { result ≤ BANDS }
{
    let mut count = 0;
    for i in 0..end {
        if !bands.flow(i as u8).is(first) {
            count += 1;
        }
    }
    count
}

// The bands that are listed, where none is from one on.
fn put_listed<B: Bands>(out: &mut Sink, bands: &B, first: &Flow, end: usize)
    requires none { IsNoneFrom (flow_now first.now) end (B.flows bands.now) }
    requires few { end ≤ BANDS }
    ensures { out.new ≡ put (flat_map (byte then flow).text (listed (flow_now first.now) 0 (B.flows bands.now))) out.old }
{
    for i in 0..end {
        let own = bands.flow(i as u8);
        if !own.is(first) {
            put_u8(out, i as u8);
            put_flow(out, &own);
        }
    }
}

/// The flow control of a queue's bands. The cost is a step where the bands above 0 say that they are as a queue is made, or else one
/// for each band, and one more where any is listed.
pub fn put_flows<B: Bands>(out: &mut Sink, bands: &B, at: QueueKind)
    ensures { out.new ≡ put ((flows Second at).text (B.flows bands.now)) out.old }
{
    let first = at.first_flow();
    let end = end_of(bands, &first);
    let count = count_listed(bands, &first, end);
    put_u16(out, count as u16);
    if count == 0 {
        return;
    }
    put_listed(out, bands, &first, end);
}
