//! What calls came to: how many were granted, and how many were refused, by the refusal's number.

ghost use Rattle.std.specs.Prelude.{◌≡◌, ◌+◌, ◌<◌, MatchResult};
ghost use Rattle.strm_storm.specs.Storms.{all_counted, granted_one, refused_one};

use strm_types::Refusal;

/// How many calls were granted, and how many were refused, by the refusal's number.
#[derive(Clone, Copy)]
pub(crate) struct Counts {
    pub granted: u64,
    pub refused: [u64; 12],
}

impl Counts {
    /// No call.
    pub fn none() -> Counts
        ensures { all_counted result ≡ 0 }
    {
        Counts {
            granted: 0,
            refused: [0; 12],
        }
    }

    /// Counts one call more.
    pub fn add(&mut self, outcome: &Result<(), Refusal>)
        requires { all_counted self.old < 4294967296 }
        ensures counted { MatchResult outcome.now (λ _. self.new ≡ granted_one self.old) (λ r. self.new ≡ refused_one r self.old) }
        ensures all { all_counted self.new ≡ all_counted self.old + 1 }
    {
        match outcome {
            Ok(()) => self.granted += 1,
            Err(refusal) => self.refused[refusal.number() as usize] += 1,
        }
    }

    /// What both count together.
    pub fn plus(&self, more: &Counts) -> Counts
        requires { all_counted self.now + all_counted more.now < 4294967296 }
        ensures { all_counted result ≡ all_counted self.now + all_counted more.now }
    {
        let mut refused = self.refused;
        for n in 0..12 {
            refused[n] += more.refused[n];
        }
        Counts {
            granted: self.granted + more.granted,
            refused,
        }
    }
}
