//! The ledger of a direction.

ghost use Rattle.std.specs.Prelude.{◌≡◌};
ghost use Rattle.std.specs.List.{flat_map};
ghost use Rattle.strm_image.specs.Format.{u64};
ghost use Rattle.strm_image.specs.Image.{account, rule_counts};
ghost use Rattle.strm_image.specs.Sinks.{put};

use crate::sink::Sink;
use crate::writing::fields::put_u64;
use strm_types::{Book, RULES};

// Numbers of 64 bits, one behind the other.
#[tactic(auto, using(crate::proofs::SinkRows::put_nothing))]
fn put_counts(out: &mut Sink, counts: &[u64])
    ensures { out.new ≡ put (flat_map u64.text counts.now) out.old }
{
    for count in counts {
        put_u64(out, *count);
    }
}

// What has gone by each rule.
fn put_rule_counts(out: &mut Sink, counts: &[u64; RULES])
    ensures { out.new ≡ put (rule_counts.text counts.now) out.old }
{
    put_counts(out, counts);
}

/// What was written and made in a direction, and what has gone by each rule.
pub fn put_account(out: &mut Sink, book: &Book, fates: &[u64; RULES])
    ensures { out.new ≡ put (account.text (record { book = book.now; fates = fates.now })) out.old }
{
    put_u64(out, book.written);
    put_u64(out, book.made);
    put_rule_counts(out, fates);
}
