// The records of a plate file as parts of its bytes, what stands before its lines, and its faults.
#![tactic(auto)]

mod cutting;
mod display_kind;
mod fault;
mod heading;
mod letters;
mod palette;
mod pins;
mod record;

pub use cutting::cut;
pub use display_kind::{AnyDisplay, CostKind, MachineKind};
pub use fault::{FileFault, LineFault, PlateFault};
pub use heading::{Heading, read_heading};
pub use letters::UnknownLetter;
pub use pins::{pin_at, pins_are_right};
pub use record::{Mark, Record, Stage, UnknownMark};
