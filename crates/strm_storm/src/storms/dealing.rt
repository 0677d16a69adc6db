//! How the ends of a storm's pairs are made, and given to its threads.

ghost use Rattle.std.specs.Prelude.{◌≡◌, All, IfOk, OnOk, [], ◌∷◌, ◌++◌, length};
ghost use Rattle.strm_minors.specs.Openers.{IsOf};
ghost use Rattle.strm_locks.specs.Systems.{IsOne};
ghost use Rattle.strm_storm.specs.Storms.{AreHands, AreOf, IsJob};

use super::hands::Hand;
use super::plans::StormPlan;
use crate::ends::{Ends, opened};
use std::alloc::{AllocError, Global};
use std::sync::Wait;
use strm_locks::{Object, System, Told};
use strm_minors::Opener;

/// The ends of all pairs, each side's in the order of the pairs.
#[derive(Drop)]
pub(crate) struct Sides<P: Object> {
    pub masters: Vec<Hand<P>>,
    pub slaves: Vec<Hand<P>>,
}

/// What a thread is given: an end of each pair, the number behind which its calls are picked, and how many it makes.
#[derive(Drop)]
pub(crate) struct Job<P: Object> {
    pub hands: Vec<Hand<P>>,
    pub seed: u64,
    pub calls: u32,
}

// Two lists of hands, to which two are put at a time.
type Lists<P> = (Vec<Hand<P>>, Vec<Hand<P>>);

fn no_hands<P: Object>(alloc: Global, count: usize) -> Result<Lists<P>, AllocError>
    ensures { IfOk result (λ both. (both.0.items ≡ []) × (both.1.items ≡ [])) }
{
    let first = Vec::with_capacity(alloc, count)?;
    Ok((first, Vec::with_capacity(alloc, count)?))
}

// Puts one hand at the end of each list.
fn put<P: Object>(both: &mut Lists<P>, two: (Hand<P>, Hand<P>)) -> Result<(), AllocError>
    ensures { OnOk result ((both.new.0.items ≡ both.old.0.items ++ two.0 ∷ []) × (both.new.1.items ≡ both.old.1.items ++ two.1 ∷ [])) }
{
    let (first, second) = two;
    both.0.push(first)?;
    both.1.push(second)?;
    Ok(())
}

// Both ends of the pair of a new minor, which is unlocked. The master's hand counts the three calls of that.
fn new_hands<P: Object, R: Wait>(
    rt: &R,
    system: &System<P>,
    opener: &mut Opener,
) -> Result<(Hand<P>, Hand<P>), AllocError>
    requires { IsOf system.now.minors opener.old }
    ensures opener { IsOf system.now.minors opener.new }
    ensures ends { IfOk result (λ two. IsOne system.now two.0.end × IsOne system.now two.1.end) }
{
    let Ok(minor) = system.claim(opener) else {
        return Err(AllocError);
    };
    let Ok(Ends { master, slave }) = opened(rt, system, minor) else {
        return Err(AllocError);
    };
    let own = Told {
        calls: 3,
        ..Told::nothing()
    };
    Ok((Hand { end: master, own }, Hand::new(slave)))
}

/// Opens so many pairs, of each both sides. It is refused where one can't be had.
pub(crate) fn all_opened<P: Object, R: Wait>(
    rt: &R,
    alloc: Global,
    system: &System<P>,
    opener: &mut Opener,
    pairs: u32,
) -> Result<Sides<P>, AllocError>
    requires { IsOf system.now.minors opener.old }
    ensures masters { IfOk result (λ s. AreOf system.now pairs s.masters.items) }
    ensures slaves { IfOk result (λ s. AreOf system.now pairs s.slaves.items) }
{
    let mut both = no_hands(alloc, pairs as usize)?;
    for made in 0..pairs {
        let two = new_hands(rt, system, opener)?;
        put(&mut both, two)?;
    }
    let (masters, slaves) = both;
    Ok(Sides { masters, slaves })
}

// Cuts each end in two: those that stay, which keep what was counted, and those that a thread gets.
fn dealt<P: Object>(
    alloc: Global,
    system: &System<P>,
    hands: Vec<Hand<P>>,
) -> Result<Lists<P>, AllocError>
    requires { AreHands system.now hands.items }
    ensures left { IfOk result (λ two. AreOf system.now (length hands.items) two.0.items) }
    ensures given { IfOk result (λ two. AreOf system.now (length hands.items) two.1.items) }
{
    let mut both = no_hands(alloc, hands.len())?;
    for hand in hands {
        let two = hand.split(system)?;
        put(&mut both, two)?;
    }
    Ok(both)
}

// The ends of the thread of this number, masters' where it is even and else slaves', and those that are left.
fn dealt_to<P: Object>(
    alloc: Global,
    system: &System<P>,
    sides: Sides<P>,
    thread: u32,
) -> Result<(Sides<P>, Vec<Hand<P>>), AllocError>
    requires masters { AreHands system.now sides.masters.items }
    requires slaves { AreHands system.now sides.slaves.items }
    requires same { length sides.slaves.items ≡ length sides.masters.items }
    ensures masters { IfOk result (λ two. AreOf system.now (length sides.masters.items) two.0.masters.items) }
    ensures slaves { IfOk result (λ two. AreOf system.now (length sides.masters.items) two.0.slaves.items) }
    ensures given { IfOk result (λ two. AreOf system.now (length sides.masters.items) two.1.items) }
{
    let Sides { masters, slaves } = sides;
    if thread % 2 == 0 {
        let (masters, given) = dealt(alloc, system, masters)?;
        Ok((Sides { masters, slaves }, given))
    } else {
        let (slaves, given) = dealt(alloc, system, slaves)?;
        Ok((Sides { masters, slaves }, given))
    }
}

/// The job of each thread of a plan, and the ends that are left.
pub(crate) fn all_dealt<P: Object>(
    alloc: Global,
    system: &System<P>,
    sides: Sides<P>,
    plan: StormPlan,
) -> Result<(Sides<P>, Vec<Job<P>>), AllocError>
    requires masters { AreOf system.now plan.pairs sides.masters.items }
    requires slaves { AreOf system.now plan.pairs sides.slaves.items }
    ensures masters { IfOk result (λ two. AreOf system.now plan.pairs two.0.masters.items) }
    ensures slaves { IfOk result (λ two. AreOf system.now plan.pairs two.0.slaves.items) }
    ensures jobs { IfOk result (λ two. All (λ j. IsJob system.now plan.calls j) two.1.items) }
    ensures each { IfOk result (λ two. length two.1.items ≡ plan.threads) }
{
    let mut jobs = Vec::with_capacity(alloc, plan.threads as usize)?;
    let mut sides = sides;
    for thread in 0..plan.threads {
        let (left, hands) = dealt_to(alloc, system, sides, thread)?;
        sides = left;
        jobs.push(Job {
            hands,
            seed: plan.seed.wrapping_add(thread as u64),
            calls: plan.calls,
        })?;
    }
    Ok((sides, jobs))
}
