//! The image of a pair, read: its plain state as it stands in a text.

ghost use Rattle.std.specs.Prelude.{◌≡◌, ◌<◌, ◌+◌, ◌^◌, ◌&&◌, IfSome, IfNone};
ghost use Rattle.strm_image.specs.declared.versions.Version.{Version};
ghost use Rattle.strm_image.specs.Format.{IsTextOf, Reads, whole};
ghost use Rattle.strm_image.specs.AccountTexts.{account_now};
ghost use Rattle.strm_image.specs.Counts.{balances, laid_blocks};
ghost use Rattle.strm_image.specs.Image.{Imaged, are_balanced, are_quiet, are_there, body, image, is_quiet, is_there, stream_of};
ghost use Rattle.strm_image.specs.ImageTexts.{image_now, imaged_now};
ghost use Rattle.strm_image.specs.StreamTexts.{laid_now};

use crate::accounts::{AccountText, accounts_at, total};
use crate::codes::{flag_at, openness_at, version_at};
use crate::enabled::{NAMES, enabled_at};
use crate::fields::{bytes_at, u32_at};
use crate::modules::{is_none, stands};
use crate::streams::{StreamText, is_silent, stream_at};
use crate::versions::Version;
use arrayvec::ArrayVec;
use strm_types::{Both, Openness, Place, QueueName, Side, Slot, Way};

/// A state, where it stands in a text: what both sides have, the enabled queues, and the ledger of what each side writes.
#[derive(Drop)]
pub struct StateText<'a> {
    pub opened: Both<Openness>,
    pub locked: bool,
    pub next_ioctl: u32,
    pub streams: Both<StreamText<'a>>,
    pub enabled: ArrayVec<QueueName, NAMES>,
    pub accounts: Both<AccountText>,
}

/// An image, where it stands in a text.
#[derive(Drop)]
pub struct ImageText<'a> {
    pub version: Version,
    pub state: StateText<'a>,
}

impl<'a> StreamText<'a> {
    // Whether it is open, or has no module, no signal, no ioctl under way and no message for its readers.
    fn is_quiet(&self, opened: Openness) -> bool
        ensures { result ≡ is_quiet (stream_of opened (laid_now self.now)) }
    {
        opened.is_open()
            || (is_none(self.modules.as_slice())
                && is_silent(self.signals)
                && matches!(self.slot, Slot::Free)
                && self.head.messages.is_empty())
    }
}

impl<'a> StateText<'a> {
    /// How many blocks of each kind the messages on all queues take.
    pub fn blocks(&self) -> usize
        ensures value { result ≡ laid_blocks (laid_now self.now.streams.master) + laid_blocks (laid_now self.now.streams.slave) }
        ensures few { result < 2 ^ 62 }
    {
        self.streams.master.blocks() + self.streams.slave.blocks()
    }

    // Whether sides that aren't open hold nothing for their callers.
    fn are_quiet(&self) -> bool
        ensures { result ≡ are_quiet (imaged_now self.now) }
    {
        self.streams.master.is_quiet(self.opened.master)
            && self.streams.slave.is_quiet(self.opened.slave)
    }

    // Whether a queue of this name exists.
    fn is_there(&self, name: &QueueName) -> bool
        ensures { result ≡ is_there (imaged_now self.now).state name.now }
    {
        let modules = match name.side {
            Side::Master => self.streams.master.modules.as_slice(),
            Side::Slave => self.streams.slave.modules.as_slice(),
        };
        match name.place {
            Place::Head => matches!(name.way, Way::Up),
            Place::Module(name) => name.has_queues() && stands(modules, name),
            Place::Driver => matches!(name.way, Way::Down),
        }
    }

    // Whether each enabled queue exists.
    fn are_there(&self) -> bool
        ensures { result ≡ are_there (imaged_now self.now) }
    {
        for name in self.enabled.as_slice() {
            if !self.is_there(name) {
                return false;
            }
        }
        true
    }

    // Whether what each side wrote, and what was made of it, is on its way to the other one or has gone.
    fn both_balance(&self) -> bool
        ensures { result ≡ (balances (account_now self.now.accounts.master)
            (laid_now self.now.streams.master) (laid_now self.now.streams.slave)
            && balances (account_now self.now.accounts.slave)
            (laid_now self.now.streams.slave) (laid_now self.now.streams.master)) }
    {
        let (master, slave) = (&self.streams.master, &self.streams.slave);
        is_balanced(&self.accounts.master, master, slave)
            && is_balanced(&self.accounts.slave, slave, master)
    }

    // Whether the ledger of each direction has equal sums.
    fn are_balanced(&self) -> bool
        ensures { result ≡ are_balanced (imaged_now self.now) }
    {
        self.both_balance()
    }

    // Whether all that is asked of the whole holds.
    fn holds(&self) -> bool
        ensures { result ≡ (are_quiet (imaged_now self.now) && (are_there (imaged_now self.now) && are_balanced (imaged_now self.now))) }
    {
        self.are_quiet() && self.are_there() && self.are_balanced()
    }
}

// Whether what a side wrote, and what was made of it, is on its way to the other one or has gone. The sums have 128 bits, so none goes
// round.
fn is_balanced(account: &AccountText, from: &StreamText<'_>, to: &StreamText<'_>) -> bool
    ensures { result ≡ balances (account_now account.now) (laid_now from.now) (laid_now to.now) }
{
    let queued = from.down_cells() + to.up_cells();
    u128::from(account.written) + u128::from(account.made)
        == queued + to.inline_cells() + total(&account.fates)
}

// The state at the front of a text.
fn state_at(text: &[u8], version: Version) -> Option<(StateText<'_>, &[u8])>
    ensures { Reads (λ x. (imaged_now x.0, x.1.now)) result ((body version).read text.now) }
{
    let (master_opened, rest) = openness_at(text)?;
    let (slave_opened, rest) = openness_at(rest)?;
    let (locked, rest) = flag_at(rest)?;
    let (next_ioctl, rest) = u32_at(rest)?;
    if next_ioctl < 1 {
        return None;
    }
    let (master, rest) = stream_at(rest, version, false)?;
    let (slave, rest) = stream_at(rest, version, true)?;
    let (enabled, rest) = enabled_at(rest)?;
    let (accounts, rest) = accounts_at(rest)?;
    let state = StateText {
        opened: Both {
            master: master_opened,
            slave: slave_opened,
        },
        locked,
        next_ioctl,
        streams: Both { master, slave },
        enabled,
        accounts,
    };
    if !state.holds() {
        return None;
    }
    Some((state, rest))
}

// The image that all of the bytes are the text of.
#[tactic(auto, unfolding(crate::specs::Image::image))]
fn image_at(text: &[u8]) -> Option<ImageText<'_>>
    ensures { Reads image_now result (whole image text.now) }
{
    let (mark, rest) = bytes_at(text, 4)?;
    if mark != b"STPI".as_slice() {
        return None;
    }
    let (version, rest) = version_at(rest)?;
    let (state, rest) = state_at(rest, version)?;
    if !rest.is_empty() {
        return None;
    }
    Some(ImageText { version, state })
}

/// The image that bytes are the text of, and none exactly where they are the text of none. It takes no memory, and time in proportion to
/// the bytes.
pub fn read(bytes: &[u8]) -> Option<ImageText<'_>>
    ensures found { IfSome result (λ i. IsTextOf image bytes.now (image_now i)) }
    ensures none { IfNone result ((v : Version) (x : Imaged) → IsTextOf image bytes.now (v, x) → ⊥) }
{
    image_at(bytes)
}
