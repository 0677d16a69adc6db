//! Minors that two openers claim and release, in turn and by two threads at once.

ghost use Rattle.std.specs.Prelude.{IfOk};
ghost use Rattle.strm_minors.specs.Openers.{IsOf};

use std::alloc::Global;
use std::process::Abort;
use std::test::Fail;
use std::thread::{Threads, join};
use strm_minors::{Minor, Minors, NoMinor, Opener};

// Claims a minor and releases it, a thousand times: how often one was had.
fn claims(minors: &Minors, opener: Opener) -> (Opener, u64)
    requires { IsOf minors.now opener }
    ensures { IsOf minors.now result.0 }
{
    let mut opener = opener;
    let mut had = 0u64;
    for _ in 0..1000 {
        if let Ok(minor) = minors.claim(&mut opener) {
            had = had.saturating_add(1);
            minors.release(&mut opener, minor);
        }
    }
    (opener, had)
}

// Two threads claim: the opener of both, and how often each had a minor.
fn both_claim<R: Threads + Sync>(rt: &R, minors: &Minors, opener: Opener) -> (Opener, u64, u64)
    requires { IsOf minors.now opener }
    ensures { IsOf minors.now result.0 }
{
    let (first, second) = minors.split_opener(opener);
    let (one, two) = join(
        rt,
        || -> (Opener, u64)
            requires { IsOf minors.now first }
            ensures { IsOf minors.entry.now result.0 }
        { claims(minors, first) },
        || -> (Opener, u64)
            requires { IsOf minors.now second }
            ensures { IsOf minors.entry.now result.0 }
        { claims(minors, second) },
    );
    (minors.join_openers(one.0, two.0), one.1, two.1)
}

// Each of two threads had a minor at each claim, and both minors are free behind them.
fn both_are_had<R: Threads + Sync + Abort>(rt: &R, minors: &Minors, opener: Opener)
    requires { IsOf minors.now opener }
{
    let (mut both, one, two) = both_claim(rt, minors, opener);
    assert!(rt; one == 1000 && two == 1000);
    assert!(rt; minors.claim(&mut both).is_ok() && minors.claim(&mut both).is_ok());
    assert!(rt; minors.claim(&mut both).is_err());
}

// A thread finds the first of two minors taken only while the other thread holds it, and then the second one is free.
#[test]
fn two_threads_claim_two_minors_at_once(rt: HostRuntime) -> Result<(), Fail> {
    let (minors, opener) = Minors::new(rt.alloc(), 2)?;
    both_are_had(&rt, &minors, opener);
    Ok(())
}

// Two openers, and the minors that they claimed.
#[derive(Drop)]
struct TwoOpeners {
    even: Opener,
    odd: Opener,
    claimed: Vec<Minor>,
}

// Minors 0 to 63, claimed by two openers in turn.
fn claimed_in_turn(
    rt: &impl Abort,
    alloc: Global,
    minors: &Minors,
    opener: Opener,
) -> Result<TwoOpeners, Fail>
    requires { IsOf minors.now opener }
    ensures { IfOk result (λ c. IsOf minors.now c.even × IsOf minors.now c.odd) }
{
    let (mut even, mut odd) = minors.split_opener(opener);
    let mut claimed = Vec::new(alloc);
    for number in 0..64 {
        let minor = if number % 2 == 0 {
            minors.claim(&mut even)?
        } else {
            minors.claim(&mut odd)?
        };
        assert_eq!(rt; minor.number(), number);
        claimed.push(minor)?;
    }
    assert!(rt; minors.claim(&mut even).is_err());
    assert!(rt; minors.claim(&mut odd).is_err());
    Ok(TwoOpeners { even, odd, claimed })
}

// A minor of one opener, which releases it, and the other claims it.
fn passed_on(
    rt: &impl Abort,
    minors: &Minors,
    from: &mut Opener,
    to: &mut Opener,
    minor: Minor,
) -> Result<Minor, NoMinor>
    requires from { IsOf minors.now from.old }
    requires to { IsOf minors.now to.old }
    ensures from { IsOf minors.now from.new }
    ensures to { IsOf minors.now to.new }
{
    let number = minor.number();
    assert!(rt; from.holds(&minor) && !to.holds(&minor));
    minors.release(from, minor);
    let again = minors.claim(to)?;
    assert_eq!(rt; again.number(), number);
    assert!(rt; to.holds(&again) && !from.holds(&again));
    Ok(again)
}

// All of 64 minors are claimed in turn, one is passed on, and one opener of both holds them all.
fn all_are_claimed(
    rt: &impl Abort,
    alloc: Global,
    minors: &Minors,
    opener: Opener,
) -> Result<(), Fail>
    requires { IsOf minors.now opener }
{
    let TwoOpeners {
        mut even,
        mut odd,
        mut claimed,
    } = claimed_in_turn(rt, alloc, minors, opener)?;
    assert_eq!(rt; claimed.len(), 64);
    let seventh = claimed.swap_remove(7);
    let again = passed_on(rt, minors, &mut odd, &mut even, seventh)?;
    assert_eq!(rt; again.number(), 7);
    claimed.push(again)?;

    let both = minors.join_openers(even, odd);
    for minor in &claimed {
        assert!(rt; both.holds(minor));
    }
    Ok(())
}

#[test]
fn two_openers_claim_all_in_turn(rt: HostRuntime) -> Result<(), Fail> {
    let (minors, opener) = Minors::new(rt.alloc(), 64)?;
    all_are_claimed(&rt, rt.alloc(), &minors, opener)
}

// The only minor is taken while one opener holds it, and the other's once it is released.
fn only_is_passed_on(rt: &impl Abort, minors: &Minors, opener: Opener) -> Result<(), NoMinor>
    requires { IsOf minors.now opener }
{
    let (mut first, mut second) = minors.split_opener(opener);
    let only = minors.claim(&mut second)?;
    assert_eq!(rt; only.number(), 0);
    assert!(rt; minors.claim(&mut first).is_err());
    let only = passed_on(rt, minors, &mut second, &mut first, only)?;
    assert_eq!(rt; only.number(), 0);
    Ok(())
}

#[test]
fn a_single_pair_is_claimed_again_once_it_is_released(rt: HostRuntime) -> Result<(), Fail> {
    let (minors, opener) = Minors::new(rt.alloc(), 1)?;
    only_is_passed_on(&rt, &minors, opener)?;
    Ok(())
}
