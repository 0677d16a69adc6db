//! Messages whose data part gets other bytes by a table, while a duplicate of their first block stands on a list and no message block is
//! free.

ghost use Rattle.std.specs.Prelude.{◌≡◌, ◌≤◌, IfSome};
ghost use Rattle.strm_blocks.specs.Blocks.{IsInHand, in_hand, token};
ghost use Rattle.strm_msg.specs.Messages.{IsChain};

use super::rows::{Wanted, is_made_of, shows};
use crate::moves::frees;
use std::alloc::{AllocError, Global};
use std::process::Abort;
use strm_blocks::{Blocks, InHand, Reserve, TableStore};
use strm_msg::{dupmsg, translate};
use strm_raw::RawStore;
use strm_types::{Band, MsgKind};

// A message of band 3, of two blocks, of which the second is of M_DATA; what is in its blocks once each small letter of its data part is a
// large one; and how many data blocks are free then.
pub(crate) struct Page<'a> {
    pub(crate) first: Wanted<'a>,
    pub(crate) second: &'a [u8],
    pub(crate) then: &'a [Wanted<'a>],
    pub(crate) free: usize,
}

fn large_letters() -> [u8; 256] {
    let mut table = [0u8; 256];
    for at in 0..256 {
        let byte = at as u8;
        table[at] = if byte.is_ascii_lowercase() {
            byte - 32
        } else {
            byte
        };
    }
    table
}

// Puts a duplicate of a message on the first list, and says whether there is room for it.
fn shares<B: Blocks>(store: &mut B, message: &InHand) -> bool
    requires { IsInHand (B.value store.old) (token message.now) }
    ensures hand { (B.value store.new).hand ≡ (B.value store.old).hand }
    ensures mblks { (B.value store.new).mblks ≡ (B.value store.old).mblks }
    ensures dblks { (B.value store.new).dblks ≡ (B.value store.old).dblks }
{
    let Ok(twin) = dupmsg(store, message) else {
        return false;
    };
    store.insert_back(0, twin);
    true
}

// A message of two blocks. A duplicate of the first one is on the first list.
fn makes<B: Blocks>(store: &mut B, first: Wanted<'_>, second: &[u8]) -> Option<InHand>
    requires { (B.value store.old).mblks ≤ (B.value store.old).dblks }
    ensures wide { (B.value store.new).mblks ≤ (B.value store.new).dblks }
    ensures in_hand { IfSome result (λ m. IsInHand (B.value store.new) (token m)) }
    ensures chain { IfSome result (λ m. IsChain (in_hand (B.value store.new) (token m))) }
{
    if first.0.is_high_priority() || first.1.len() > 256 || second.len() > 256 {
        return None;
    }
    let Ok(message) = store.alloc_with(first.0, Band(3), first.1) else {
        return None;
    };
    if !shares(store, &message) {
        store.free(message);
        return None;
    }
    let Ok(behind) = store.alloc_with(MsgKind::Data, Band(3), second) else {
        store.free(message);
        return None;
    };
    Some(store.link(message, behind))
}

// A message whose small letters are large ones.
fn enlarged<B: Blocks>(store: &mut B, message: InHand) -> InHand
    requires in_hand { IsInHand (B.value store.old) (token message) }
    requires chain { IsChain (in_hand (B.value store.old) (token message)) }
    requires wide { (B.value store.old).mblks ≤ (B.value store.old).dblks }
    ensures { IsInHand (B.value store.new) (token result) }
{
    translate(store, message, &large_letters())
}

fn turns<B: Blocks>(rt: &impl Abort, store: &mut B, page: &Page<'_>)
    requires { (B.value store.old).mblks ≤ (B.value store.old).dblks }
{
    let free = store.free_blocks();
    let Some(message) = makes(store, page.first, page.second) else {
        panic!(rt; "no message");
    };
    let message = enlarged(store, message);
    assert!(rt; is_made_of(store, &message, page.then));
    assert_eq!(rt; store.free_blocks(), (0, page.free));
    store.free(message);
    assert!(rt; shows(store, 0, &[page.first]));
    assert!(rt; frees(store, 0));
    assert_eq!(rt; store.free_blocks(), free);
}

// Turns a page in a new store of three blocks of each kind.
fn play<B: Reserve>(rt: &impl Abort, alloc: Global, page: &Page<'_>) -> Result<(), AllocError> {
    let mut store = B::reserve(alloc, 3, 3)?;
    turns(rt, &mut store, page);
    Ok(())
}

// Turns pages, each in a new store of each kind.
pub(crate) fn plays_pages(
    rt: &impl Abort,
    alloc: Global,
    pages: &[Page<'_>],
) -> Result<(), AllocError> {
    for page in pages {
        play::<TableStore>(rt, alloc, page)?;
        play::<RawStore>(rt, alloc, page)?;
    }
    Ok(())
}
