//! A module that a user writes and pushes on a stream: a code page, by which each byte that passes becomes another one (STREAMS Programming Guide,
//! "Modules"). It stands on what the crates of a pair export, as any user's module does.
#![tactic(auto)]

ghost use Rattle.std.specs.Prelude.{◌≡◌};

mod asking;
mod passing;

use crate::asking::{answer, asked_of};
use crate::passing::pass;
use strm_blocks::{Blocks, InHand};
use strm_frame::Outbox;
use strm_laws::Behaves;
use strm_pair::{Own, OwnModule};
use strm_queue::Queue;
use strm_types::{Fates, Spot, Way};

/// The number of the module among a user's own: `ModuleName::Own(CODE_PAGE)` is pushed.
pub const CODE_PAGE: u8 = 1;

/// The command of the M_IOCTL that sets the page, which comes with the 256 bytes of one (streamio(7I): I_STR).
pub const SETPAGE: u32 = 0x4301;

/// How many bytes a page has: one for each byte.
pub const PAGE_SIZE: usize = 256;

/// A module that puts other bytes in place of those that pass it. It is set to a page of 256 bytes, and where the page has `b` at place `a`, each byte
/// `a` of a data part becomes `b`: of M_DATA, and of M_PROTO and M_PCPROTO, whose control part stays. That is so on the way up and on the way down.
///
/// As it is pushed it is set to nothing, and all passes as it is. An M_IOCTL of [`SETPAGE`] that comes down with 256 bytes sets the page, and is answered
/// with M_IOCACK; with another number of bytes it is answered with M_IOCNAK, EINVAL, and the page stays. All else passes.
pub enum CodePage {}

impl Behaves for CodePage {
    ghost use Rattle.code_page.specs.PageBehaviour.{code_page};

    ghost does = { code_page };
}

impl OwnModule for CodePage {
    ghost use Rattle.std.specs.Prelude.{true, false};
    ghost use Rattle.code_page.specs.PageLaws.{page-queues};

    ghost wide = { true };

    ghost queued = { false };

    ghost queues = { page-queues };

    fn queued() -> bool {
        false
    }

    fn made(number: u8) -> Option<Own> {
        if number == CODE_PAGE {
            Some(Own::new(number, &[]))
        } else {
            None
        }
    }

    fn put<B: Blocks>(
        own: &mut Own,
        store: &mut B,
        here: Spot,
        message: InHand,
        _told: &mut Fates,
    ) -> Outbox {
        match asked_of(store, here, &message) {
            Some(ioc) => answer(own, store, here, ioc, message),
            None => pass(own, store, here, message),
        }
    }

    fn holds<B: Blocks>(_own: &Own, _store: &B, _here: Spot, _message: &InHand) -> bool {
        false
    }

    fn goes<B: Blocks>(_own: &Own, _store: &B, _way: Way, _queue: &Queue) -> bool {
        true
    }
}
