//! Pairs that are made of images, and by scripts.

ghost use Rattle.std.specs.Prelude.{◌≡◌, ◌<◌, ◌≤◌, IfOk, Err};
ghost use Rattle.strm_types.specs.declared.refusals.Refusal.TheVariants.{Einval};
ghost use Rattle.strm_laws.proofs.NoOwn.{none as no_own};
ghost use Rattle.strm_image.specs.declared.versions.Version.TheVariants.{Second};
ghost use Rattle.strm_image.specs.Format.{IsTextOf};
ghost use Rattle.strm_image.specs.Image.{Imaged, image};
ghost use Rattle.strm_pair.specs.Restored.{IsImageFor, IsNoImage};
ghost use Rattle.strm_vectors.specs.Told.{IsPairOf};

use crate::differences::Difference;
use std::alloc::Global;
use strm_blocks::Reserve;
use strm_pair::Pair;
use strm_script::Session;
use strm_types::{Config, Refusal};

/// The pair that is made of an image over so many message blocks and data blocks. It is only looked at, so its journal has little room.
pub fn restored<B: Reserve>(
    alloc: Global,
    text: &[u8],
    mblks: usize,
    dblks: usize,
) -> Result<Pair<B>, Refusal>
    requires some_mblks { 0 < mblks }
    requires few_mblks { mblks ≤ 65536 }
    requires some_dblks { 0 < dblks }
    requires few_dblks { dblks ≤ 65536 }
    ensures einval { result ≡ Err Einval → IsNoImage no_own text.now }
    ensures ok { IfOk result (λ p. (x : Imaged) × (IsImageFor no_own text.now x × IsPairOf x mblks dblks p)) }
{
    let Ok(store) = B::reserve(alloc, mblks, dblks) else {
        return Err(Refusal::NoMemory);
    };
    let sizes = Config {
        mblks,
        dblks,
        journal_events: 1,
        journal_bytes: 1,
    };
    match Pair::restore(alloc, sizes, text, store) {
        Ok(pair) => Ok(pair),
        Err((why, _store)) => Err(why),
    }
}

// The image of a session's pair.
fn image_of<B: Reserve>(alloc: Global, session: &Session<B>) -> Result<Vec<u8>, Difference>
    ensures { IfOk result (λ text. (x : Imaged) × IsTextOf image text.items (Second, x)) }
{
    match session.pair() {
        Some(pair) => Ok(pair.image(alloc)?),
        None => Err(Difference::NoPair),
    }
}

// Plays a script to its end.
fn play<B: Reserve>(
    alloc: Global,
    session: &mut Session<B>,
    script: &[u8],
) -> Result<(), Difference> {
    let Ok(()) = session.take(alloc, script) else {
        return Err(Difference::Ended);
    };
    let Ok(()) = session.finish(alloc) else {
        return Err(Difference::Ended);
    };
    Ok(())
}

// The image of the pair that a script leaves in a session.
fn played_in<B: Reserve>(
    alloc: Global,
    session: &mut Session<B>,
    script: &[u8],
) -> Result<Vec<u8>, Difference>
    ensures { IfOk result (λ text. (x : Imaged) × IsTextOf image text.items (Second, x)) }
{
    play(alloc, session, script)?;
    image_of(alloc, session)
}

/// The image of the pair that a script leaves.
pub fn played<B: Reserve>(alloc: Global, script: &[u8]) -> Result<Vec<u8>, Difference>
    ensures { IfOk result (λ text. (x : Imaged) × IsTextOf image text.items (Second, x)) }
{
    let mut session: Session<B> = Session::new(alloc);
    let image = played_in(alloc, &mut session, script);
    drop(session);
    image
}
