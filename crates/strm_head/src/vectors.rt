//! Reads into a vector of their own (read(2)).

ghost use Rattle.std.specs.Prelude.{◌≡◌, ◌≤◌, ◌+◌, ◌++◌, ◌⊎◌, length, min, vec_capacity, None, Some, IfOk, IfErr, OnOk, OnErr};
ghost use Rattle.strm_types.specs.declared.refusals.Refusal.TheVariants.{NoMemory};
ghost use Rattle.strm_types.specs.Reads.{read_refusal, head_draw, read_queue, read_lets_go, read_told};
ghost use Rattle.strm_queue.specs.Stored.{messages_on, queue_in, IsHeadQueue, Keeps};
ghost use Rattle.strm_head.specs.Leaving.{Frees};

use crate::head::Head;
use std::alloc::Global;
use strm_blocks::Blocks;
use strm_types::{Content, Dir, Fates, READ_MAX, Refusal};

/// What a read into a vector gives: the bytes, and whether a waiting writer is let go.
#[derive(Drop)]
pub struct Vectored {
    pub bytes: Vec<u8>,
    pub lets_go: bool,
}

// Adds bytes to a vector that has room for them.
fn append(vector: &mut Vec<u8>, bytes: &[u8])
    requires { length vector.old.items + length bytes.now ≤ vec_capacity vector.old }
    ensures { vector.new.items ≡ vector.old.items ++ bytes.now }
{
    vector.extend_from_slice(bytes).unwrap();
}

impl Head {
    /// Gives up to `n` bytes of what waits in a vector of their own; `n` above 4096 counts as 4096. `at_end` says that the input
    /// is at its end. Room for all that may be given is reserved first: where memory is refused the read is refused as
    /// `NoMemory`, before EAGAIN and EBADMSG of [`Head::read_refusal`], and a refused read takes nothing. Else it takes and tells what
    /// [`Head::read`] does. Each byte is copied twice; `read`, which has a buffer lent, copies it once.
    pub fn read_vec<B: Blocks>(
        &mut self,
        alloc: Global,
        store: &mut B,
        at_end: bool,
        n: usize,
        direction: Dir,
        fates: &mut Fates,
    ) -> Result<Vectored, Refusal>
        requires ready { IsHeadQueue (B.value store.old) self.old.queue }
        ensures allowed { OnOk result (read_refusal self.old.control_mode at_end (min n READ_MAX)
            (messages_on (B.value store.old) self.old.queue.list) ≡ None) }
        ensures given { IfOk result (λ v. v.bytes.items
            ≡ (head_draw self.old.read_mode self.old.control_mode (min n READ_MAX) (messages_on (B.value store.old) self.old.queue.list)).given) }
        ensures most_given { IfOk result (λ v. length v.bytes.items ≤ min n READ_MAX) }
        ensures queue { OnOk result (queue_in (B.value store.new) self.new.queue
            ≡ read_queue self.old.read_mode self.old.control_mode (min n READ_MAX) (queue_in (B.value store.old) self.old.queue)) }
        ensures went { IfOk result (λ v. v.lets_go
            ≡ read_lets_go self.old.read_mode self.old.control_mode (min n READ_MAX) (queue_in (B.value store.old) self.old.queue)) }
        ensures told { OnOk result (fates.new
            ≡ read_told direction self.old.read_mode self.old.control_mode (min n READ_MAX) (messages_on (B.value store.old) self.old.queue.list) fates.old) }
        ensures frees { OnOk result (Frees (B.value store.old) (B.value store.new) self.old.queue.list) }
        ensures keeps { OnOk result (Keeps (B.value store.old) (B.value store.new) self.old.queue self.new.queue) }
        ensures ready { IsHeadQueue (B.value store.new) self.new.queue }
        ensures modes { self.new ≡ record self.old { queue = self.new.queue } }
        ensures refused { IfErr result (λ r. (r ≡ NoMemory) ⊎ (read_refusal self.old.control_mode at_end (min n READ_MAX)
            (messages_on (B.value store.old) self.old.queue.list) ≡ Some r)) }
        ensures same_head { OnErr result (self.new ≡ self.old) }
        ensures same_store { OnErr result (B.value store.new ≡ B.value store.old) }
        ensures same_fates { OnErr result (fates.new ≡ fates.old) }
    {
        let most = n.min(READ_MAX);
        let Ok(mut bytes) = Vec::with_capacity(alloc, most) else {
            return Err(Refusal::NoMemory);
        };
        if let Some(refusal) = self.read_refusal(store, at_end, most) {
            return Err(refusal);
        }
        let mut out = Content::new();
        let lets_go = self.read(store, most, &mut out, direction, fates);
        append(&mut bytes, out.as_slice());
        Ok(Vectored { bytes, lets_go })
    }
}
