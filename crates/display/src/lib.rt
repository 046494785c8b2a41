// Displays: colours, the error of a pixel, and the machines that turn codes into colours.
#![tactic(auto)]

mod colour;
mod fill;
mod half_brite;
mod ham;
mod machine;

pub use colour::{Colour, Levels, Target, level};
pub use fill::Fill;
pub use half_brite::HalfBrite;
pub use ham::Ham;
pub use machine::DisplayMachine;
