// A run: a list of calls on one plate, made one after another, and the record of what each answered.
#![tactic(auto)]

mod closing;
mod entry;
mod running;
mod state;
mod step;

pub use closing::{buffers, close_into};
pub use entry::{Answer, Call, Entry};
pub use running::{numbers_stand, run};
