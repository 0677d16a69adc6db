//! A pair that is made of an image.

ghost use Rattle.std.specs.Prelude.{◌≡◌, ◌≢◌, ◌≤◌, ◌↔◌, [], false, true, replicate, IfErr, IfOk, Some};
ghost use Rattle.strm_types.specs.declared.limits.TheConstants.{LISTS};
ghost use Rattle.strm_types.specs.declared.refusals.Refusal.TheVariants.{Einval, Enosr, NoMemory};
ghost use Rattle.strm_laws.specs.Refusals.{enough};
ghost use Rattle.strm_frame.specs.Hands.{HasRoom, IsWide};
ghost use Rattle.strm_image.specs.declared.versions.Version.{Version};
ghost use Rattle.strm_image.specs.Image.{Imaged, image};
ghost use Rattle.strm_image.specs.ImageTexts.{imaged_now};
ghost use Rattle.strm_laws.specs.Known.{all_known};
ghost use Rattle.strm_pair.specs.PairViews.{sizes_over};
ghost use Rattle.strm_pair.specs.Pairs.{free_in};
ghost use Rattle.strm_pair.specs.Reserved.{IsReserved};
ghost use Rattle.strm_pair.specs.Restored.{IsImageFor, IsNoImage, image_blocks, refusal_in, restored};

use crate::base::Base;
use crate::images::known::all_known;
use crate::images::made_pairs::{fates_of, streams_of};
use crate::journal::Journal;
use crate::pair::Pair;
use crate::streams::{QueueTables, queue_tables};
use std::alloc::{AllocError, Global};
use std::marker::PhantomData;
use strm_blocks::Blocks;
use strm_image::{IMAGE_BLOCK, IMAGE_FIXED, StateText, read};
use strm_own::OwnModule;
use strm_types::{Config, Refusal};

/// The memory of a pair that is to be made: of the bands of its queues, of its journal, and of the journal's base.
#[derive(Drop)]
pub(crate) struct Reserved {
    pub tables: QueueTables,
    pub journal: Journal,
    pub base: Vec<u8>,
}

impl Reserved {
    /// Asks for the memory of a pair of these sizes.
    fn new<M: OwnModule>(alloc: Global, limits: &Config) -> Result<Reserved, AllocError>
        requires { limits.now.mblks ≤ 65536 }
        ensures { IfOk result (λ r. IsReserved M.queued limits.now r) }
    {
        Ok(Reserved {
            tables: queue_tables::<M>(alloc)?,
            journal: Journal::new(alloc, limits.journal_events, limits.journal_bytes)?,
            base: Vec::with_capacity(alloc, IMAGE_FIXED + IMAGE_BLOCK * limits.mblks)?,
        })
    }
}

impl<B: Blocks + Drop, M: OwnModule> Pair<B, M> {
    // A pair of a text over a store that holds nothing, and has the blocks that the messages of the text take.
    fn made_of(limits: Config, text: &StateText<'_>, store: B, reserved: Reserved) -> Pair<B, M>
        requires lists { (B.value store).lists ≡ replicate LISTS [] }
        requires hand { (B.value store).hand ≡ [] }
        requires fits { (v : Version) × (image.fits (v, imaged_now text.now) ≡ true) }
        requires known { all_known M.does (imaged_now text.now).state ≡ true }
        requires room { HasRoom (B.value store) (image_blocks (imaged_now text.now)) }
        requires limits { limits ≡ sizes_over (B.value store) limits }
        requires reserved { IsReserved M.queued limits reserved }
        requires wide { IsWide M.wide (B.value store) }
        ensures { result ≡ restored limits (imaged_now text.now) }
    {
        let mut store = store;
        let mut shelf = reserved.tables.shelf;
        let streams = streams_of(&mut store, &mut shelf, reserved.tables.ends, text);
        let fates = fates_of(text);
        store.audit();
        let base = Base::at(&store, &streams, &fates, reserved.base);
        Pair {
            store,
            streams,
            shelf,
            journal: reserved.journal,
            base,
            limits,
            fates,
            of: PhantomData,
        }
    }

    /// The pair whose image a text is, in either version (docs/IMAGES.md), over a store that holds nothing: its lists are empty, and
    /// nothing is in hand. Its journal is empty, and begins at the state of the image. The sizes of its journal are those of `sizes`, its
    /// numbers of blocks are the store's.
    ///
    /// It is refused where the text is the image of no state, or of one with a module of a user's own of which there are none (EINVAL), where the
    /// store has fewer free blocks of a kind than the messages of the image take (ENOSR), and where memory is refused, in this order. Then the
    /// store comes back as it was. The memory is that of [`Pair::new`], and no later call takes any to keep. The cost is in proportion to the text.
    pub fn restore(
        alloc: Global,
        sizes: Config,
        text: &[u8],
        store: B,
    ) -> Result<Pair<B, M>, (Refusal, B)>
        requires lists { (B.value store).lists ≡ replicate LISTS [] }
        requires hand { (B.value store).hand ≡ [] }
        requires wide { IsWide M.wide (B.value store) }
        ensures einval { (refusal_in result ≡ Some Einval) ↔ IsNoImage M.does text.now }
        ensures enosr { (refusal_in result ≡ Some Enosr)
            ↔ ((x : Imaged) × (IsImageFor M.does text.now x × (enough (image_blocks x) (free_in (B.value store)) ≡ false))) }
        ensures others { IfErr result (λ e. e.0 ≢ Einval → e.0 ≢ Enosr → e.0 ≡ NoMemory) }
        ensures returned { IfErr result (λ e. B.value e.1 ≡ B.value store) }
        ensures ok { IfOk result (λ p. (x : Imaged) × (IsImageFor M.does text.now x × (p ≡ restored (sizes_over (B.value store) sizes) x))) }
    {
        let Some(found) = read(text) else {
            return Err((Refusal::Einval, store));
        };
        if !all_known::<M>(&found.state) {
            return Err((Refusal::Einval, store));
        }
        store.audit();
        let (mblks, dblks) = store.free_blocks();
        let blocks = found.state.blocks();
        if mblks < blocks || dblks < blocks {
            return Err((Refusal::Enosr, store));
        }
        let limits = Config {
            mblks,
            dblks,
            ..sizes
        };
        let Ok(reserved) = Reserved::new::<M>(alloc, &limits) else {
            return Err((Refusal::NoMemory, store));
        };
        Ok(Pair::made_of(limits, &found.state, store, reserved))
    }
}
