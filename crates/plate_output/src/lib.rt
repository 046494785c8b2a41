// Reads and prints plate files, for the programs.
#![tactic(auto)]

mod bounds;
mod input;
mod output;

pub use bounds::{Bounds, SMALL, WHOLE};
pub use input::read_input;
pub use output::print_file;
