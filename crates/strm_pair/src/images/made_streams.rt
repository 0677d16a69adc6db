//! Streams as a text has them, made in a store.

ghost use Rattle.std.specs.Prelude.{◌≤◌, sum_by};
ghost use Rattle.strm_frame.specs.Hands.{HasRoom};
ghost use Rattle.strm_image.specs.Counts.{laid_blocks};
ghost use Rattle.strm_image.specs.StreamTexts.{laid_now};
ghost use Rattle.strm_pair.specs.Laying.{IsStood, IsStreamText, stream_now};
ghost use Rattle.strm_pair.specs.Placing.{text_pair};
ghost use Rattle.strm_pair.specs.Shelves.{Restocks, tables_on};
ghost use Rattle.strm_pair.specs.Streams.{IsBlank};

use crate::ends::StreamEnd;
use crate::images::heads::head_of;
use crate::images::made_queues::queue_of;
use crate::images::made_stacks::stack_of;
use crate::shelves::Shelf;
use crate::streams::SideTables;
use strm_blocks::Blocks;
use strm_image::StreamText;
use strm_types::Openness;

/// Makes the stream of a side of a text, on eight lists where nothing stands: the head's, the driver's, and those for the queues of modules, whose
/// tables are taken off the shelf.
pub(crate) fn end_of<B: Blocks>(
    store: &mut B,
    first: usize,
    shelf: &mut Shelf,
    tables: SideTables,
    opened: Openness,
    text: &StreamText<'_>,
) -> StreamEnd
    requires first { first ≤ 8 }
    requires shelf { sum_by text_pair text.now.modules.items ≤ tables_on shelf.old }
    requires blank { IsBlank (B.value store.old) first }
    requires good { IsStreamText text.now }
    requires room { HasRoom (B.value store.old) (laid_blocks (laid_now text.now)) }
    ensures stood { IsStood (B.value store.old) (B.value store.new) first (stream_now opened text.now) (laid_blocks (laid_now text.now)) result }
    ensures shelf { Restocks shelf.old shelf.new 0 (sum_by text_pair text.now.modules.items) }
{
    let queue = queue_of(store, first, tables.head, &text.head);
    let driver = queue_of(store, first + 1, tables.driver, &text.driver);
    let stack = stack_of(store, first + 2, shelf, text.modules.as_slice());
    StreamEnd {
        opened,
        head: head_of(queue, text),
        stack,
        driver,
    }
}
