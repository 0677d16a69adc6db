//! Queues as a text has them, made in a store.

ghost use Rattle.std.specs.Prelude.{◌≡◌, ◌≤◌, ◌<◌, List, [], false, replicate, slice_set, sum_by};
ghost use Rattle.strm_types.specs.declared.limits.TheConstants.{LISTS};
ghost use Rattle.strm_types.specs.declared.limits.TheConstants.{BANDS};
ghost use Rattle.strm_blocks.specs.Blocks.{Block, list_at};
ghost use Rattle.strm_queue.specs.Flows.{plain_flows};
ghost use Rattle.strm_queue.specs.Kept.{AreCounted};
ghost use Rattle.strm_queue.specs.Queues.{OnlyCounts};
ghost use Rattle.strm_queue.specs.Stored.{queue_in};
ghost use Rattle.strm_image.specs.declared.versions.Version.TheVariants.{First, Second};
ghost use Rattle.strm_image.specs.Loads.{blocks_of};
ghost use Rattle.strm_image.specs.FlowTexts.{IsMarked, flow_now};
ghost use Rattle.strm_image.specs.Queues.{first_flow};
ghost use Rattle.strm_image.specs.QueueTexts.{queue_now};
ghost use Rattle.strm_image.specs.Texts.{flows_now, messages_now};
ghost use Rattle.strm_frame.specs.Hands.{HasRoom};
ghost use Rattle.strm_pair.specs.Runs.{Spent};
ghost use Rattle.strm_pair.specs.Standing.{Fills, waits_at};

use crate::images::made_messages::fill;
use strm_blocks::Blocks;
use strm_image::{FIRST_BANDS, Flow, FlowsText, QueueText, Version, band_behind, few_flows_at};
use strm_queue::{Queue, Table};
use strm_types::{Band, Marks};

// Sets the flow control of a band for which no writer waits.
fn set_flow(queue: &mut Queue, band: Band, flow: Flow)
    requires marked { IsMarked flow }
    requires free { waits_at band.0 (plain_flows queue.old.flows) ≡ false }
    ensures flows { plain_flows queue.new.flows ≡ slice_set (plain_flows queue.old.flows) band.0 (flow_now flow) }
    ensures counted { (q : List (List Block)) → AreCounted queue.old.flows q → AreCounted queue.new.flows q }
    ensures others { OnlyCounts queue.old queue.new }
{
    queue.set_marks(band, flow.high, flow.low);
    if flow.want_write {
        queue.let_wait(band);
    }
}

// Sets the flow control of all bands as version 1 lists it, of a queue that has that of a new one: all have the marks of the last band that
// is listed, and those that are listed their own.
fn set_few(queue: &mut Queue, flows: &FlowsText<'_>)
    requires version { flows.now.version ≡ First }
    requires new { plain_flows queue.old.flows ≡ replicate BANDS (first_flow flows.now.queue) }
    ensures flows { plain_flows queue.new.flows ≡ flows_now flows.now }
    ensures counted { (q : List (List Block)) → AreCounted queue.old.flows q → AreCounted queue.new.flows q }
    ensures others { OnlyCounts queue.old queue.new }
{
    let Some(found) = few_flows_at(flows.text) else {
        unreachable!()
    };
    let few = found.0;
    let last = few[FIRST_BANDS - 1];
    queue.mark_bands(Marks {
        high: last.high,
        low: last.low,
    });
    for band in 0..FIRST_BANDS {
        set_flow(queue, Band(band as u8), few[band]);
    }
}

// Sets the flow control of the bands that version 2 lists, of a queue that has that of a new one.
fn set_listed(queue: &mut Queue, flows: &FlowsText<'_>)
    requires version { flows.now.version ≡ Second }
    requires new { plain_flows queue.old.flows ≡ replicate BANDS (first_flow flows.now.queue) }
    ensures flows { plain_flows queue.new.flows ≡ flows_now flows.now }
    ensures counted { (q : List (List Block)) → AreCounted queue.old.flows q → AreCounted queue.new.flows q }
    ensures others { OnlyCounts queue.old queue.new }
{
    let first = flows.queue.first_flow();
    let mut rest = flows.text;
    let mut from = 0;
    for _ in 0..flows.count {
        let Some(((band, flow), after)) = band_behind(rest, &first, from) else {
            unreachable!()
        };
        set_flow(queue, Band(band), flow);
        from = usize::from(band) + 1;
        rest = after;
    }
}

// Sets the flow control of all bands of a queue that has that of a new one. What is listed is read again, as it was when the text was.
fn set_flows(queue: &mut Queue, flows: &FlowsText<'_>)
    requires new { plain_flows queue.old.flows ≡ replicate BANDS (first_flow flows.now.queue) }
    ensures flows { plain_flows queue.new.flows ≡ flows_now flows.now }
    ensures counted { (q : List (List Block)) → AreCounted queue.old.flows q → AreCounted queue.new.flows q }
    ensures others { OnlyCounts queue.old queue.new }
{
    match flows.version {
        Version::First => set_few(queue, flows),
        Version::Second => set_listed(queue, flows),
    }
}

/// Makes a queue of a text on a list where nothing stands, with its messages, its flags and the flow control of its bands.
pub(crate) fn queue_of<B: Blocks>(
    store: &mut B,
    list: usize,
    table: Table,
    text: &QueueText<'_>,
) -> Queue
    requires list { list < LISTS }
    requires empty { list_at (B.value store.old) list ≡ [] }
    requires room { HasRoom (B.value store.old) (sum_by blocks_of (messages_now text.now.messages)) }
    ensures queue { queue_in (B.value store.new) result ≡ queue_now text.now }
    ensures fills { Fills (B.value store.old) (B.value store.new) list result }
    ensures spent { Spent (B.value store.old) (B.value store.new) (sum_by blocks_of (messages_now text.now.messages)) }
{
    let first = text.flows.queue.first_flow();
    let mut queue = Queue::new(list, first.high, first.low, table);
    fill(store, &mut queue, &text.messages);
    set_flows(&mut queue, &text.flows);
    queue.want_read = text.want_read;
    queue.no_enable = text.no_enable;
    queue
}
