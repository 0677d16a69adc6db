//! Several small numbers in one: truths as binary digits, and two numbers below 65,536.

ghost use Rattle.std.specs.Prelude.{◌≡◌, ◌+◌, ◌*◌, ◌/◌, ◌%◌, ◌<◌};
ghost use Rattle.strm_journal.specs.Numbers.{is_odd};

/// One more than the most that each of two numbers in one may be.
pub(crate) const HALF: u32 = 65536;

/// Whether the last binary digit of a number is 1.
#[inline(always)]
pub(crate) fn is_odd(number: u32) -> bool
    ensures { result ≡ is_odd number }
{
    number % 2 == 1
}

/// A number with one more binary digit, its last one.
#[inline(always)]
pub(crate) fn with_digit(digit: bool, others: u32) -> u32
    requires { others < 1000 }
    ensures last { is_odd result ≡ digit }
    ensures others { result / 2 ≡ others }
    ensures few { result < 2 * others + 2 }
{
    if digit { 2 * others + 1 } else { 2 * others }
}

/// Two numbers in one.
#[inline(always)]
pub(crate) fn joined(low: u32, high: u32) -> u32
    requires low { low < 65536 }
    requires high { high < 65536 }
    ensures low { result % 65536 ≡ low }
    ensures high { result / 65536 ≡ high }
{
    low + HALF * high
}
