ghost use Rattle.std.specs.Prelude.{◌≤◌, Some};
ghost use Rattle.std.proofs.Common.{rules};

use crate::Cost;
use std::fmt;

// Errors added up.
#[derive(Clone, Copy, Debug, PartialEq, Eq, PartialOrd, Ord)]
pub struct Summed {
    pub error: u32,
    ghost bounded: { error ≤ 4294967295 },
}

impl Cost for Summed {
    ghost use Rattle.cost.specs.Kinds.{summed};
    ghost use Rattle.cost.specs.Same.{same_summed};

    ghost kind = { summed };

    ghost lawful = { Prim.search (rules, same_summed) };

    fn zero() -> Summed {
        Summed { error: 0 }
    }

    fn price(error: u32, _holds: bool) -> Summed {
        Summed { error }
    }

    fn join(self, other: Summed) -> Summed {
        Summed {
            error: self.error.saturating_add(other.error),
        }
    }

    fn at_most(self, other: Summed) -> bool {
        self <= other
    }
}

impl fmt::Display for Summed {
    ghost use Rattle.cost.specs.Texts.{summed_text};

    ghost output = { λ x. Some (summed_text x) };

    fn fmt<W: fmt::Write>(&self, f: &mut fmt::Formatter<W>) -> fmt::Result {
        write!(f, "{}", self.error)
    }
}
