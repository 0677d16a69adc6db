//! The ledger of a direction as it stands in a text.

ghost use Rattle.std.specs.Prelude.{◌≡◌, ◌<◌, ◌^◌};
ghost use Rattle.std.specs.List.{sum};
ghost use Rattle.strm_image.specs.AccountTexts.{account_now};
ghost use Rattle.strm_image.specs.Format.{Reads, ◌then◌};
ghost use Rattle.strm_image.specs.Image.{account, rule_counts};

use crate::fields::u64_at;
use strm_types::{Both, RULES};

/// What was written and made in a direction, and what has gone by each rule, by the numbers of the rules.
#[derive(Clone, Copy, Drop)]
pub struct AccountText {
    pub written: u64,
    pub made: u64,
    pub fates: [u64; RULES],
}

// What has gone by each rule.
fn rule_counts_at(text: &[u8]) -> Option<([u64; RULES], &[u8])>
    ensures { Reads (λ x. (x.0, x.1.now)) result (rule_counts.read text.now) }
{
    let mut counts = [0; RULES];
    let mut rest = text;
    for i in 0..RULES {
        let (count, after) = u64_at(rest)?;
        counts[i] = count;
        rest = after;
    }
    Some((counts, rest))
}

/// The ledger of a direction, but for what stands on its queues and in its lines.
#[tactic(auto, unfolding(crate::specs::Image::account))]
fn account_at(text: &[u8]) -> Option<(AccountText, &[u8])>
    ensures { Reads (λ x. (account_now x.0, x.1.now)) result (account.read text.now) }
{
    let (written, rest) = u64_at(text)?;
    if written >= 9223372036854775808 {
        return None;
    }
    let (made, rest) = u64_at(rest)?;
    if made >= 9223372036854775808 {
        return None;
    }
    let (fates, rest) = rule_counts_at(rest)?;
    let account = AccountText {
        written,
        made,
        fates,
    };
    Some((account, rest))
}

/// The ledgers of both directions, that of what the master writes first.
pub fn accounts_at(text: &[u8]) -> Option<(Both<AccountText>, &[u8])>
    ensures { Reads (λ x. ((account_now x.0.master, account_now x.0.slave), x.1.now)) result ((account then account).read text.now) }
{
    let (master, rest) = account_at(text)?;
    let (slave, rest) = account_at(rest)?;
    Some((Both { master, slave }, rest))
}

/// How many bytes have gone by some rule.
pub fn total(counts: &[u64; RULES]) -> u128
    ensures value { result ≡ sum counts.now }
    ensures within { result < 2 ^ 70 }
{
    let mut all = 0;
    for i in 0..RULES {
        all += u128::from(counts[i]);
    }
    all
}
