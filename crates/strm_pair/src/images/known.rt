//! Whether there are modules of all names that a text has.

ghost use Rattle.std.specs.Prelude.{◌≡◌};
ghost use Rattle.strm_image.specs.ImageTexts.{imaged_now};
ghost use Rattle.strm_image.specs.ModuleTexts.{names_now};
ghost use Rattle.strm_laws.specs.Known.{all_known, are_known};

use strm_image::{ModuleText, StateText};
use strm_own::{OwnModule, is_known};

// Whether there are modules of the names of a stream's.
fn are_known<M: OwnModule>(modules: &[ModuleText<'_>]) -> bool
    ensures { result ≡ are_known M.does (names_now modules.now) }
{
    let Some((first, rest)) = modules.split_first() else {
        return true;
    };
    is_known::<M>(first.name()) && are_known::<M>(rest)
}

/// Whether there are modules of all names that the streams of a text have.
pub(crate) fn all_known<M: OwnModule>(text: &StateText<'_>) -> bool
    ensures { result ≡ all_known M.does (imaged_now text.now).state }
{
    are_known::<M>(text.streams.master.modules.as_slice())
        && are_known::<M>(text.streams.slave.modules.as_slice())
}
