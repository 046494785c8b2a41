// The trellis: columns over lent cells, and the calls on a plate that write them.
#![tactic(auto)]

mod calls;
mod columns;
mod plate;
mod trace;

pub use calls::WIDEST;
pub use plate::{OpenLine, Plate, Report};
