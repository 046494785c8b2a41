ghost use Rattle.std.specs.Prelude.{Some};
ghost use Rattle.std.proofs.Common.{rules};

use crate::Cost;
use std::fmt;

// The largest error.
#[derive(Clone, Copy, Debug, PartialEq, Eq, PartialOrd, Ord)]
pub struct Worst {
    pub error: u32,
}

impl Cost for Worst {
    ghost use Rattle.cost.specs.Kinds.{worst};

    ghost kind = { worst };

    ghost lawful = { Prim.search rules };

    fn zero() -> Worst {
        Worst { error: 0 }
    }

    fn price(error: u32, _holds: bool) -> Worst {
        Worst { error }
    }

    fn join(self, other: Worst) -> Worst {
        Worst {
            error: self.error.max(other.error),
        }
    }

    fn at_most(self, other: Worst) -> bool {
        self <= other
    }
}

impl fmt::Display for Worst {
    ghost use Rattle.cost.specs.Texts.{worst_text};

    ghost output = { λ x. Some (worst_text x) };

    fn fmt<W: fmt::Write>(&self, f: &mut fmt::Formatter<W>) -> fmt::Result {
        write!(f, "{}", self.error)
    }
}
