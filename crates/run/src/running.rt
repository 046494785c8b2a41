// The run.
ghost use Rattle.std.specs.Prelude.{◌≡◌, length, IfOk};
ghost use Rattle.run.specs.Numbers.{NumbersTheorem};
ghost use Rattle.run.specs.Promise.{Promise};

use crate::entry::{Call, Entry};
use crate::state::{State, Step, Unanswered};
use crate::step::make_call;
use cost::Cost;
use display::DisplayMachine;
use std::alloc::{AllocError, Global};
use trellis::Plate;
use viterbi::Cell;

// Makes the calls one after another on a new plate, as far as each finds the plate at rest or the open line that takes it,
// and records what each answered. Fails only for want of memory for the record.
pub fn run<M: DisplayMachine, C: Cost>(
    heap: Global,
    machine: &M,
    cells: &mut [Cell<C>],
    calls: &[Call],
) -> Result<Vec<Entry<C>>, AllocError>
    ensures { IfOk result (λ entries. Promise (M.meaning machine.now) C.kind (length cells.old) calls.now entries.items) }
{
    let (state, entries) = make_calls(heap, machine, cells, calls);
    state.put_away();
    entries
}

// The record, and what is held after it, which cannot be dropped.
fn make_calls<M: DisplayMachine, C: Cost>(
    heap: Global,
    machine: &M,
    cells: &mut [Cell<C>],
    calls: &[Call],
) -> (State<C>, Result<Vec<Entry<C>>, AllocError>)
    ensures { IfOk result.1 (λ entries. Promise (M.meaning machine.now) C.kind (length cells.old) calls.now entries.items) }
{
    let mut entries = Vec::new(heap);
    let mut state = State::Resting(Plate::new());
    for call in calls {
        let Step {
            state: next,
            answer,
        } = make_call(heap, machine, cells, state, *call);
        state = next;
        match answer {
            Ok(answer) => {
                if let Err(failed) = entries.push(Entry {
                    call: *call,
                    answer,
                }) {
                    return (state, Err(failed.into()));
                }
            }
            Err(Unanswered::NotFound) => return (state, Ok(entries)),
            Err(Unanswered::NoMemory(error)) => return (state, Err(error)),
        }
    }
    (state, Ok(entries))
}

// Pixels and pins are refused by number 8 alone once the earlier checks are passed, and no close by number 11.
// Of no use to a program: its contract is the theorem.
pub fn numbers_stand<C>() -> u8
    ensures { NumbersTheorem C }
{
    0
}
