// Tests of runs and of the calls on a plate. The small display machine and the small cost kind stand here alone, so that
// they show what a new machine or kind asks for: an implementation of its trait, with its laws, and nothing in another crate.
#![tactic(auto)]

mod fuse;
#[cfg(test)]
mod fuse_calls;
#[cfg(test)]
mod fuse_runs;
mod litter;
mod misses;
#[cfg(test)]
mod plate_calls;
#[cfg(test)]
mod refused_runs;
#[cfg(test)]
mod told;
#[cfg(test)]
mod wanted;
#[cfg(test)]
mod worked_lines;

pub use fuse::Fuse;
pub use litter::littered;
pub use misses::Misses;
