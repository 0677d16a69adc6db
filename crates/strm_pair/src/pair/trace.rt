//! The image of a pair, and the journal that is handed out and begins anew.

ghost use Rattle.std.specs.Prelude.{◌≡◌, true, length, IfErr, IfOk};
ghost use Rattle.strm_image.specs.HasImage.{imaged};
ghost use Rattle.strm_image.specs.Image.{image};
ghost use Rattle.strm_image.specs.Sinks.{front_over};
ghost use Rattle.strm_image.specs.Traces.{IsTrace};
ghost use Rattle.strm_image.specs.declared.versions.Version.TheVariants.{Second};
ghost use Rattle.strm_laws.specs.Pair.{restarted};
ghost use Rattle.strm_laws.specs.Known.{all_known};

use crate::images::whole::image_into;
use crate::images::widths::{know_fates, know_streams};
use crate::pair::Pair;
use std::alloc::Global;
use strm_blocks::Blocks;
use strm_image::Trace;
use strm_journal::copied;
use strm_own::OwnModule;
use strm_types::NoMemory;

// A copy of bytes.
fn copy_of(alloc: Global, bytes: &[u8]) -> Result<Vec<u8>, NoMemory>
    ensures { IfOk result (λ v. v.items ≡ bytes.now) }
{
    let Ok(copy) = Vec::from_slice(alloc, bytes) else {
        return Err(NoMemory);
    };
    Ok(copy)
}

impl<B: Blocks + Drop, M: OwnModule> Pair<B, M> {
    /// Writes the image of the pair in version 2 (docs/IMAGES.md), its plain state and how many bytes have gone by each rule, to the front of
    /// a buffer, and answers how long it is. Behind it the buffer stays; where it is too small it holds the first bytes of the image. The pair
    /// stays as it is. No memory is taken. The cost is in proportion to the bytes, and a step for each band of a queue where one above 0 has marks
    /// of its own or a writer waits for it.
    pub fn image_into(&self, out: &mut [u8]) -> usize
        ensures text { out.new ≡ front_over (image.text (Second, imaged self.now.state self.now.fates)) out.old }
        ensures length { result ≡ length (image.text (Second, imaged self.now.state self.now.fates)) }
        ensures fits { image.fits (Second, imaged self.now.state self.now.fates) ≡ true }
        ensures known { all_known M.does self.now.state ≡ true }
    {
        self.store.audit();
        know_streams(&self.streams);
        know_fates(&self.fates);
        image_into(&self.store, &self.streams, &self.fates, out)
    }

    /// The image of the pair, as [`Pair::image_into`] writes it, in memory of its own, which is asked for once.
    pub fn image(&self, alloc: Global) -> Result<Vec<u8>, NoMemory>
        ensures text { IfOk result (λ text. text.items ≡ image.text (Second, imaged self.now.state self.now.fates)) }
        ensures fits { image.fits (Second, imaged self.now.state self.now.fates) ≡ true }
        ensures known { all_known M.does self.now.state ≡ true }
    {
        let wanted = self.image_into(&mut []);
        let Ok(mut text) = Vec::from_elem(alloc, 0, wanted) else {
            return Err(NoMemory);
        };
        self.image_into(text.as_mut_slice());
        Ok(text)
    }

    /// Begins the journal anew, in place: it is empty, and the state and the fates that the pair has are those at which it begins. All
    /// else stays, so a pair whose journal is full goes on. It takes no memory. The cost is that of an image, and of writing over what was entered.
    pub fn restart(&mut self)
        ensures { self.new ≡ restarted self.old }
    {
        self.store.audit();
        know_streams(&self.streams);
        know_fates(&self.fates);
        self.base.past.go_on(&self.journal);
        self.base.write(&self.store, &self.streams, &self.fates);
        self.journal.clear();
    }

    // Copies of the base's text and of the journal.
    fn trace(&self, alloc: Global) -> Result<Trace, NoMemory>
        ensures { IfOk result (λ t. IsTrace self.now t) }
    {
        Ok(Trace {
            base: copy_of(alloc, self.base.text.as_slice())?,
            entries: copied(alloc, self.journal.entries.as_slice())?,
            bytes: copy_of(alloc, self.journal.bytes.as_slice())?,
        })
    }

    /// Hands out the base at which the journal begins and all that was carried out since, and begins the journal anew, as [`Pair::restart`]
    /// does. The memory of the copies is asked for first; where that is refused, the pair stays as it is. The cost is in proportion to the bytes
    /// that are handed out, and that of an image of the state.
    pub fn cut(&mut self, alloc: Global) -> Result<Trace, NoMemory>
        ensures trace { IfOk result (λ t. IsTrace self.old t) }
        ensures restarted { IfOk result (λ _. self.new ≡ restarted self.old) }
        ensures stays { IfErr result (λ _. self.new ≡ self.old) }
    {
        let trace = self.trace(alloc)?;
        self.restart();
        Ok(trace)
    }
}
