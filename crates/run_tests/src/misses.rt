// A small cost kind: every pixel with an error counts for one, however large the error is.
ghost use Rattle.std.specs.Prelude.{◌≤◌, Some, decimal};
ghost use Rattle.std.proofs.Common.{rules};

use cost::Cost;
use std::fmt;

// How many pixels do not show the colour wanted.
#[derive(Clone, Copy, Debug, PartialEq, Eq, PartialOrd, Ord)]
pub struct Misses {
    pub pixels: u32,
    ghost bounded: { pixels ≤ 4294967295 },
}

#[tactic(auto, using(crate::specs::Same::same_misses))]
impl Cost for Misses {
    ghost use Rattle.run_tests.specs.Misses.{misses};
    ghost use Rattle.run_tests.specs.Same.{same_misses};

    ghost kind = { misses };

    ghost lawful = { Prim.search (rules, same_misses) };

    fn zero() -> Misses {
        Misses { pixels: 0 }
    }

    fn price(error: u32, _holds: bool) -> Misses {
        Misses {
            pixels: u32::from(error != 0),
        }
    }

    fn join(self, other: Misses) -> Misses {
        Misses {
            pixels: self.pixels.saturating_add(other.pixels),
        }
    }

    fn at_most(self, other: Misses) -> bool {
        self <= other
    }
}

impl fmt::Display for Misses {
    ghost output = { λ x. Some (decimal x.pixels) };

    fn fmt<W: fmt::Write>(&self, f: &mut fmt::Formatter<W>) -> fmt::Result {
        write!(f, "{}", self.pixels)
    }
}
