//! Systems and hosts of pairs that nobody opened.

ghost use Rattle.std.specs.Prelude.{◌≡◌, ◌≤◌, All, IfOk, MatchResult, length, map, replicate};
ghost use Rattle.strm_laws.specs.Pair.{new_pair};
ghost use Rattle.strm_minors.specs.Openers.{opening};
ghost use Rattle.strm_system.specs.declared.hosts.TheConstants.{MOST_PAIRS};
ghost use Rattle.strm_system.specs.Hosts.{AreOf};
ghost use Rattle.strm_system.specs.Sizes.{AreSizes, IsCount, IsLaid, NotHosted, NotMade};

use crate::fresh::{Fresh, are_sizes};
use crate::hosts::{Host, MOST_PAIRS, PAIRS};
use crate::opener::HostOpener;
use std::alloc::{AllocError, Global};
use strm_locks::System;
use strm_minors::Opener;
use strm_types::{Config, Refusal};

// So many pairs that nobody opened, each of these sizes. They are refused as one is.
fn all_unopened<P: Fresh>(alloc: Global, pairs: u32, sizes: Config) -> Result<Vec<P>, Refusal>
    requires { AreSizes sizes }
    ensures { MatchResult result
        (λ v. (length v.items ≡ pairs) × All (λ p. P.pair_of p ≡ new_pair sizes) v.items
        × (map (λ p. (P.pair_of p).limits) v.items ≡ replicate pairs sizes))
        (NotMade sizes) }
{
    let mut all = Vec::new(alloc);
    for made in 0..pairs {
        let pair = P::unopened(alloc, sizes)?;
        match all.push(pair) {
            Ok(()) => {}
            Err(_) => return Err(Refusal::NoMemory),
        }
    }
    Ok(all)
}

/// A system of so many pairs that nobody opened, each of these sizes, and the first opener of its minors: whoever takes a lock finds a pair of these
/// sizes there. It is refused as one pair is ([`Fresh::unopened`]), and a system of no pair is too.
pub fn system<P: Fresh>(
    alloc: Global,
    pairs: u32,
    sizes: Config,
) -> Result<(System<P>, Opener), Refusal>
    requires { pairs ≤ 64 }
    ensures { MatchResult result
        (λ made. AreSizes sizes × (length made.0.locks ≡ pairs) × (map (λ l. l.sizes) made.0.locks ≡ replicate pairs sizes)
        × (made.1 ≡ opening made.0.minors))
        (NotMade sizes) }
{
    if !are_sizes(&sizes) {
        return Err(Refusal::Einval);
    }
    let all = all_unopened::<P>(alloc, pairs, sizes)?;
    match System::new(alloc, all) {
        Ok(made) => Ok(made),
        Err(_) => Err(Refusal::NoMemory),
    }
}

// The systems of so many pairs, and an opener of each.
fn laid_out<P: Fresh>(
    alloc: Global,
    pairs: u32,
    sizes: Config,
) -> Result<(Host<P>, HostOpener), AllocError>
    requires { pairs ≤ MOST_PAIRS }
    ensures laid { IfOk result (λ made. IsLaid pairs sizes made.0) }
    ensures opener { IfOk result (λ made. made.1 ≡ map (λ s. opening s.minors) made.0) }
    ensures own { IfOk result (λ made. AreOf made.0 made.1) }
{
    let mut systems = Vec::new(alloc);
    let mut openers = Vec::new(alloc);
    for number in 0..(pairs + 63) / PAIRS {
        let count = (pairs - number * PAIRS).min(PAIRS);
        let Ok((made, opener)) = system::<P>(alloc, count, sizes) else {
            return Err(AllocError);
        };
        systems.push(made)?;
        openers.push(opener)?;
    }
    Ok(Host::of(systems, openers))
}

/// A host of so many pairs that nobody opened, 1 to 65,536, each of these sizes, and the first opener of its minors. Its systems have 64 pairs, and
/// the last one what is left. It is refused by EINVAL where the number of pairs or a number of blocks isn't one of those, and it alone; else for want
/// of memory (NoMemory).
pub fn host<P: Fresh>(
    alloc: Global,
    pairs: u32,
    sizes: Config,
) -> Result<(Host<P>, HostOpener), Refusal>
    ensures { MatchResult result
        (λ made. IsCount pairs × AreSizes sizes × IsLaid pairs sizes made.0 × (made.1 ≡ map (λ s. opening s.minors) made.0) × AreOf made.0 made.1)
        (NotHosted pairs sizes) }
{
    if pairs == 0 || pairs > MOST_PAIRS || !are_sizes(&sizes) {
        return Err(Refusal::Einval);
    }
    match laid_out::<P>(alloc, pairs, sizes) {
        Ok(made) => Ok(made),
        Err(_) => Err(Refusal::NoMemory),
    }
}
