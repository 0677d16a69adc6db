//! What a module of a user's own is set to that stands on a stream (STREAMS Programming Guide, "Private Data").

ghost use Rattle.std.specs.Prelude.{◌≡◌, map, option_copied};
ghost use Rattle.strm_blocks.specs.Blocks.{StoreValue};
ghost use Rattle.strm_pair.specs.AnyModules.{module_in};
ghost use Rattle.strm_pair.specs.OwnSettings.{settings_among};

use crate::modules::AnyModule;
use strm_frame::Standing;

/// What the module of a number is set to, of these. `None` where none of the number stands there.
pub(crate) fn settings_among<'a>(modules: &'a [Standing<AnyModule>], number: u8) -> Option<&'a [u8]>
    ensures { (s : StoreValue) → option_copied result ≡ settings_among number (map (module_in s) modules.now) }
{
    let (first, rest) = modules.split_first()?;
    match &first.module {
        AnyModule::Own(own) if own.number() == number => Some(own.settings()),
        _ => settings_among(rest, number),
    }
}
