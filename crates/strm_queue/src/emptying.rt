//! What flushes and closes take off a queue (flushq(9F), flushband(9F)).

ghost use Rattle.std.specs.Prelude.{◌≡◌, true, length};
ghost use Rattle.strm_types.specs.Emptied.{of_data, cells_gone, emptied, queue_behind, writer_goes};
ghost use Rattle.strm_queue.specs.Stored.{queue_in, messages_on, IsReady, Keeps, FreesBlocks};
ghost use Rattle.strm_queue.specs.Choices.{choice_of};

use crate::flush::Flush;
use crate::queue::Queue;
use crate::standing::{data_bytes, relieve, total};
use strm_blocks::Blocks;
use strm_types::Band;

/// Which messages go: all, those of data, or those of data of one band.
#[derive(Clone, Copy)]
pub enum Chosen {
    All,
    Data,
    Of(Band),
}

impl Chosen {
    /// What a flush takes: of one band, or of all.
    pub fn of_data(band: Option<Band>) -> Chosen
        ensures { choice_of result ≡ of_data band }
    {
        match band {
            Some(band) => Chosen::Of(band),
            None => Chosen::Data,
        }
    }
}

/// How many bytes of M_DATA, M_PROTO and M_PCPROTO go from a queue.
pub fn going<B: Blocks>(store: &B, queue: &Queue, chosen: Chosen) -> usize
    requires ready { IsReady (B.value store.now) queue.now }
    ensures { result ≡ length (cells_gone (choice_of chosen) (messages_on (B.value store.now) queue.now.list)) }
{
    match chosen {
        Chosen::All => data_bytes(store, queue, None),
        Chosen::Data => data_bytes(store, queue, None),
        Chosen::Of(band) => data_bytes(store, queue, Some(band)),
    }
}

// Takes messages off a queue, which wants to be read where that leaves it empty.
fn drop_chosen<B: Blocks>(store: &mut B, queue: &mut Queue, chosen: Chosen)
    requires ready { IsReady (B.value store.old) queue.old }
    ensures queue { queue_in (B.value store.new) queue.new
        ≡ emptied (choice_of chosen) (queue_in (B.value store.old) queue.old) }
    ensures keeps { Keeps (B.value store.old) (B.value store.new) queue.old queue.new }
    ensures frees { FreesBlocks (B.value store.old) (B.value store.new) }
{
    store.audit();
    match chosen {
        Chosen::All => queue.flushq(store, Flush::All),
        Chosen::Data => queue.flushq(store, Flush::Data),
        Chosen::Of(band) => queue.flushband(store, band),
    }
}

/// Takes messages off a queue, and says whether that lets a waiting writer go.
pub fn empty<B: Blocks>(store: &mut B, queue: &mut Queue, chosen: Chosen) -> bool
    requires ready { IsReady (B.value store.old) queue.old }
    ensures queue { queue_in (B.value store.new) queue.new
        ≡ queue_behind (choice_of chosen) (queue_in (B.value store.old) queue.old) }
    ensures went { result ≡ writer_goes (choice_of chosen) (queue_in (B.value store.old) queue.old) }
    ensures keeps { Keeps (B.value store.old) (B.value store.new) queue.old queue.new }
    ensures frees { FreesBlocks (B.value store.old) (B.value store.new) }
{
    let before = total(store, queue);
    drop_chosen(store, queue, chosen);
    if total(store, queue) == before {
        return false;
    }
    relieve(queue)
}
