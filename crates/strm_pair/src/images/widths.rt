//! That the numbers of a pair have the widths that an image has, as their types say. Each function tells what is so, and does nothing.

ghost use Rattle.std.specs.Prelude.{◌<◌, ◌^◌, map};
ghost use Rattle.std.specs.List.{AllByRecursion};
ghost use Rattle.strm_blocks.specs.Blocks.{StoreValue};
ghost use Rattle.strm_head.specs.Heads.{plain_slot};
ghost use Rattle.strm_image.specs.HasImage.{AreCounts, AreNumbers, HasHalves, HasModuleNumbers, HasNumbers, HasSlotNumbers, HasWords};
ghost use Rattle.strm_pair.specs.AnyModules.{module_in};
ghost use Rattle.strm_pair.specs.Pairs.{state_in};
ghost use Rattle.strm_pair.specs.Streams.{stream_in};

use crate::ends::StreamEnd;
use crate::modules::AnyModule;
use crate::streams::Streams;
use strm_frame::Standing;
use strm_head::IoctlBytes;
use strm_types::{Fates, Slot, Termios, Winsize};

fn know_word(word: u32)
    ensures { word < 2 ^ 32 }
{
    let _ = word;
}

fn know_count(count: u64)
    ensures { count < 2 ^ 64 }
{
    let _ = count;
}

fn know_termios(termios: Termios)
    ensures { HasWords termios }
{
    let _ = termios;
}

fn know_window(window: Winsize)
    ensures { HasHalves window }
{
    let _ = window;
}

fn know_slot(ioctl: &Slot<IoctlBytes>)
    ensures { HasSlotNumbers (plain_slot ioctl.now) }
{
    match ioctl {
        Slot::Free => {}
        Slot::Waiting { number, command } => {
            know_word(*number);
            know_word(*command);
        }
        Slot::Answered {
            number,
            command,
            error,
            ..
        } => {
            know_word(*number);
            know_word(*command);
            know_word(*error);
        }
    }
}

fn know_module(any: &Standing<AnyModule>)
    ensures { (s : StoreValue) → HasModuleNumbers (module_in s any.now) }
{
    match &any.module {
        AnyModule::Ldterm(ldterm) => know_termios(ldterm.termios),
        AnyModule::Ptem(ptem) => {
            know_termios(ptem.termios);
            know_window(ptem.window);
        }
        AnyModule::Pckt(_) | AnyModule::Own(_) => {}
    }
}

fn know_modules(modules: &[Standing<AnyModule>])
    ensures { (s : StoreValue) → AllByRecursion HasModuleNumbers (map (module_in s) modules.now) }
{
    if let Some((first, rest)) = modules.split_first() {
        know_module(first);
        know_modules(rest);
    }
}

fn know_end(end: &StreamEnd)
    ensures { (s : StoreValue) → HasNumbers (stream_in s end.now) }
{
    know_word(end.head.group);
    know_slot(&end.head.ioctl);
    know_modules(end.stack.modules.as_slice());
}

/// What the streams of a pair keep.
pub(crate) fn know_streams(streams: &Streams)
    ensures { (s : StoreValue) → AreNumbers (state_in s streams.now) }
{
    know_end(&streams.ends.master);
    know_end(&streams.ends.slave);
}

fn know_counts(counts: &[u64])
    ensures { AllByRecursion (λ n. n < 2 ^ 64) counts.now }
{
    if let Some((first, rest)) = counts.split_first() {
        know_count(*first);
        know_counts(rest);
    }
}

/// What has gone by each rule.
pub(crate) fn know_fates(fates: &Fates)
    ensures { AreCounts fates.now }
{
    know_counts(&fates.from_master);
    know_counts(&fates.from_slave);
}
