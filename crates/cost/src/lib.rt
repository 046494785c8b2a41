// Cost kinds: how a code line is priced, and which of two lines is cheaper.
#![tactic(auto, using(crate::specs::Same::same_summed, crate::specs::Same::same_pair))]

ghost use Rattle.std.specs.Prelude.{◌≡◌};
ghost use Rattle.cost.specs.Kind.{Kind, Lawful};

mod pair;
mod summed;
mod worst;

pub use pair::Pair;
pub use summed::Summed;
pub use worst::Worst;

// Every question is answered from the arguments alone, and none is refused.
pub trait Cost: Copy {
    ghost kind: { Kind Self };

    fn zero() -> Self
        ensures { result ≡ kind.zero };

    fn price(error: u32, holds: bool) -> Self
        ensures { result ≡ kind.price error holds };

    fn join(self, other: Self) -> Self
        ensures { result ≡ kind.join self other };

    fn at_most(self, other: Self) -> bool
        ensures { result ≡ kind.at_most self other };

    ghost lawful: { Lawful kind };
}
