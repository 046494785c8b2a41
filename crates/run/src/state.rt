// What a run holds between two calls, and what one call comes to.
use crate::entry::Answer;
use cost::Cost;
use lines::Fault;
use std::alloc::AllocError;
use trellis::{OpenLine, Plate};

// The plate at rest, its open line, or neither once the plate is reported.
pub enum State<C> {
    Resting(Plate<C>),
    Drawing(OpenLine<C>),
    Ended,
}

impl<C: Cost> State<C> {
    // Lets go of what a run holds at its end: the plate's lines and total are in no entry unless they were reported.
    pub(crate) fn put_away(self) {
        match self {
            State::Resting(plate) => {
                let _ = plate.report();
            }
            State::Drawing(line) => {
                let _ = line.abandon().report();
            }
            State::Ended => {}
        }
    }
}

// Why a call has no answer: it did not find what takes it, or there was no memory for what it answers.
#[derive(Drop)]
pub enum Unanswered {
    NotFound,
    NoMemory(AllocError),
}

// What a call leaves, and its answer. The outer Err is a call that has none, the inner one a call that was refused, which is its answer.
pub struct Step<C: Drop> {
    pub state: State<C>,
    pub answer: Result<Result<Answer<C>, Fault>, Unanswered>,
}
