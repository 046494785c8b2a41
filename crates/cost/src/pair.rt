ghost use Rattle.std.specs.Prelude.{◌≤◌, Some};
ghost use Rattle.std.proofs.Common.{arith};
ghost use Rattle.std.proofs.lemmas.Bool.Decides.{nat_tests};

use crate::Cost;
use std::fmt;

// Errors added up, and how many codes held.
#[derive(Clone, Copy, Debug, PartialEq, Eq, PartialOrd, Ord)]
pub struct Pair {
    pub error: u32,
    pub count: u32,
    ghost bounded: { (error ≤ 4294967295) × (count ≤ 4294967295) },
}

impl Cost for Pair {
    ghost use Rattle.cost.specs.Kinds.{pair};
    ghost use Rattle.cost.specs.Same.{same_pair};

    ghost kind = { pair };

    // Field by field: a search over the whole record stops at its limit of case splits.
    ghost lawful = { record {
      total = λ x y h. Prim.grind (arith, nat_tests);
      transitive = λ x y z h k. Prim.grind (arith, nat_tests);
      antisymmetric = λ x y h k. same_pair (Prim.grind (arith, nat_tests)) (Prim.grind (arith, nat_tests));
      associative = λ x y z. same_pair (omega arith) (Prim.grind (arith, nat_tests));
      zero_left = λ x. same_pair (omega arith) (Prim.grind (arith, nat_tests));
      zero_right = λ x. same_pair (omega arith) (Prim.grind (arith, nat_tests));
      grows_left = λ x y z h. Prim.grind (arith, nat_tests);
      grows_right = λ x y z h. Prim.grind (arith, nat_tests);
    } };

    fn zero() -> Pair {
        Pair { error: 0, count: 0 }
    }

    fn price(error: u32, holds: bool) -> Pair {
        Pair {
            error,
            count: u32::from(holds),
        }
    }

    // A count beside a sum that has passed the greatest number means nothing, so both halves stop there together.
    fn join(self, other: Pair) -> Pair {
        match self.error.checked_add(other.error) {
            Some(error) => Pair {
                error,
                count: self.count.saturating_add(other.count),
            },
            None => Pair {
                error: u32::MAX,
                count: u32::MAX,
            },
        }
    }

    fn at_most(self, other: Pair) -> bool {
        self <= other
    }
}

impl fmt::Display for Pair {
    ghost use Rattle.cost.specs.Texts.{pair_text};

    ghost output = { λ x. Some (pair_text x) };

    fn fmt<W: fmt::Write>(&self, f: &mut fmt::Formatter<W>) -> fmt::Result {
        write!(f, "{}/{}", self.error, self.count)
    }
}
