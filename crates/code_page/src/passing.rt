//! What passes the module, its bytes put in place of others where it is set to a page (STREAMS Programming Guide, "Put Procedures").

ghost use Rattle.std.specs.Prelude.{◌≡◌, ℕ, None, true};
ghost use Rattle.strm_types.specs.declared.rules.Fates.{Fates};
ghost use Rattle.strm_types.specs.Cells.{plain};
ghost use Rattle.strm_blocks.specs.Blocks.{token};
ghost use Rattle.strm_frame.specs.Hands.{IsWide};
ghost use Rattle.strm_frame.specs.Outboxes.{message_in};
ghost use Rattle.strm_pty.specs.Beside.{MayPass};
ghost use Rattle.strm_own.specs.OwnPuts.{OwnPuts};
ghost use Rattle.code_page.specs.CodePages.{page_puts};

use crate::PAGE_SIZE;
use strm_blocks::{Blocks, InHand};
use strm_frame::Outbox;
use strm_msg::translate;
use strm_pair::{Own, pass_on};
use strm_types::Spot;

/// Hands a message on, with the bytes of the page in its data part where the module is set to one.
pub(crate) fn pass<B: Blocks>(own: &Own, store: &mut B, here: Spot, message: InHand) -> Outbox
    requires may { MayPass (B.value store.old) (token message) here }
    requires wide { IsWide true (B.value store.old) }
    ensures { (told : Fates) (most : ℕ) → OwnPuts (B.value store.old) (B.value store.new) own.now (token message) most result told told
        (page_puts None plain here (message_in (B.value store.old) (token message)) own.now) }
{
    let page = own.settings();
    if page.len() != PAGE_SIZE {
        return pass_on(here, message);
    }
    let message = translate(store, message, page);
    pass_on(here, message)
}
