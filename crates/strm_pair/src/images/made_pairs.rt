//! Both streams as a text has them, with the enabled queues and the ledgers.

ghost use Rattle.std.specs.Prelude.{◌≡◌, ◌≤◌, [], length, replicate};
ghost use Rattle.strm_types.specs.declared.limits.TheConstants.{LISTS};
ghost use Rattle.strm_types.specs.Names.{AreQueues, IsOnce};
ghost use Rattle.strm_laws.specs.Restorable.{Restorable};
ghost use Rattle.strm_laws.specs.StackCosts.{stands_of};
ghost use Rattle.strm_frame.specs.Hands.{HasRoom};
ghost use Rattle.strm_image.specs.AccountTexts.{account_now};
ghost use Rattle.strm_image.specs.ImageTexts.{imaged_now};
ghost use Rattle.strm_pair.specs.Pairs.{AreHeld, SamePool, state_in};
ghost use Rattle.strm_pair.specs.Restored.{fates_in, image_blocks};
ghost use Rattle.strm_pair.specs.Runs.{Spent};
ghost use Rattle.strm_pair.specs.Shelves.{Restocks, pairs_stand, tables_on};

use crate::ends::first_list;
use crate::images::made_streams::end_of;
use crate::shelves::Shelf;
use crate::streams::{SideTables, Streams};
use strm_blocks::Blocks;
use strm_frame::Enabled;
use strm_image::{AccountText, StateText};
use strm_types::{Book, Both, Fates, QueueName, Side};

// The enabled queues, in order of enabling.
fn enabled_of(names: &[QueueName]) -> Enabled
    requires once { IsOnce names.now }
    requires queues { AreQueues names.now }
    requires few { length names.now ≤ 14 }
    ensures { result ≡ names.now }
{
    let mut enabled = Enabled::new();
    for name in names {
        enabled.enable(*name);
    }
    enabled
}

// What was written and made in a direction.
fn book_of(account: &AccountText) -> Book
    ensures { result ≡ (account_now account.now).book }
{
    Book {
        written: account.written,
        made: account.made,
    }
}

/// What has gone by each rule, and what was made.
pub(crate) fn fates_of(text: &StateText<'_>) -> Fates
    ensures { result ≡ fates_in (imaged_now text.now) }
{
    let (master, slave) = (&text.accounts.master, &text.accounts.slave);
    Fates {
        from_master: master.fates,
        from_slave: slave.fates,
        made_from_master: master.made,
        made_from_slave: slave.made,
    }
}

/// Makes both streams of a text in a store that holds nothing, and has the blocks that the messages take.
pub(crate) fn streams_of<B: Blocks>(
    store: &mut B,
    shelf: &mut Shelf,
    tables: Both<SideTables>,
    text: &StateText<'_>,
) -> Streams
    requires lists { (B.value store.old).lists ≡ replicate LISTS [] }
    requires hand { (B.value store.old).hand ≡ [] }
    requires good { Restorable (imaged_now text.now).state }
    requires room { HasRoom (B.value store.old) (image_blocks (imaged_now text.now)) }
    requires shelf { pairs_stand (stands_of (imaged_now text.now).state) ≤ tables_on shelf.old }
    ensures shelf { Restocks shelf.old shelf.new 0 (pairs_stand (stands_of (imaged_now text.now).state)) }
    ensures state { state_in (B.value store.new) result ≡ (imaged_now text.now).state }
    ensures held { AreHeld (B.value store.new) result }
    ensures spent { Spent (B.value store.old) (B.value store.new) (image_blocks (imaged_now text.now)) }
    ensures pool { SamePool (B.value store.old) (B.value store.new) }
{
    let master = end_of(
        store,
        first_list(Side::Master),
        shelf,
        tables.master,
        text.opened.master,
        &text.streams.master,
    );
    let slave = end_of(
        store,
        first_list(Side::Slave),
        shelf,
        tables.slave,
        text.opened.slave,
        &text.streams.slave,
    );
    Streams {
        ends: Both { master, slave },
        locked: text.locked,
        enabled: enabled_of(text.enabled.as_slice()),
        next_ioctl: text.next_ioctl,
        books: Both {
            master: book_of(&text.accounts.master),
            slave: book_of(&text.accounts.slave),
        },
    }
}
