// Close, with buffers of the lengths asked for.
ghost use Rattle.std.specs.Prelude.{◌≡◌, length, replicate, IfOk};
ghost use Rattle.trellis.specs.Calls.{closed as closing, closed_codes, closed_preview};
ghost use Rattle.run.specs.Agreement.{StepFrom};
ghost use Rattle.run.specs.declared.entry.Call.TheVariants.{Close};
ghost use Rattle.run.specs.declared.state.State.TheVariants.{Drawing};

use crate::entry::Answer;
use crate::state::{State, Step, Unanswered};
use cost::Cost;
use display::DisplayMachine;
use lines::Fault;
use std::alloc::{AllocError, Global};
use trellis::{OpenLine, Plate};
use viterbi::Cell;

// Close, with the buffers as vectors, which stay as long as they are.
pub fn close_into<M: DisplayMachine, C: Cost>(
    machine: &M,
    cells: &[Cell<C>],
    line: OpenLine<C>,
    codes: &mut Vec<u8>,
    preview: &mut Vec<u16>,
) -> Result<(Plate<C>, C), (OpenLine<C>, Fault)>
    ensures sized { (length codes.new.items ≡ length codes.old.items) × (length preview.new.items ≡ length preview.old.items) }
    ensures value { result ≡ closing (M.meaning machine.now) C.kind line cells.now codes.old.items preview.old.items }
    ensures coded { codes.new.items ≡ closed_codes (M.meaning machine.now) C.kind line cells.now codes.old.items preview.old.items }
    ensures previewed { preview.new.items ≡ closed_preview (M.meaning machine.now) C.kind line cells.now codes.old.items preview.old.items }
{
    line.close(machine, cells, codes.as_mut_slice(), preview.as_mut_slice())
}

// Buffers for a close: so many codes, so many colours, all of them 0.
pub fn buffers(
    heap: Global,
    codes: usize,
    preview: usize,
) -> Result<(Vec<u8>, Vec<u16>), AllocError>
    ensures { IfOk result (λ made. (made.0.items ≡ replicate codes 0) × (made.1.items ≡ replicate preview 0)) }
{
    let codes = vec![in heap; 0u8; codes]?;
    let preview = vec![in heap; 0u16; preview]?;
    Ok((codes, preview))
}

pub(crate) fn close_line<M: DisplayMachine, C: Cost>(
    heap: Global,
    machine: &M,
    cells: &[Cell<C>],
    line: OpenLine<C>,
    codes: usize,
    preview: usize,
) -> Step<C>
    ensures { StepFrom (M.meaning machine.now) C.kind (Drawing line) cells.now (Close codes preview) cells.now result }
{
    match buffers(heap, codes, preview) {
        Ok((codes, preview)) => close_lent(machine, cells, line, codes, preview),
        Err(error) => Step {
            state: State::Drawing(line),
            answer: Err(Unanswered::NoMemory(error)),
        },
    }
}

// Close, with these buffers, which are cut to the line.
fn close_lent<M: DisplayMachine, C: Cost>(
    machine: &M,
    cells: &[Cell<C>],
    line: OpenLine<C>,
    mut codes: Vec<u8>,
    mut preview: Vec<u16>,
) -> Step<C>
    ensures { StepFrom (M.meaning machine.now) C.kind (Drawing line) cells.now (Close (length codes.items) (length preview.items)) cells.now result }
{
    let pixels = usize::from(line.pixels());
    match close_into(machine, cells, line, &mut codes, &mut preview) {
        Ok((plate, cost)) => {
            codes.truncate(pixels);
            preview.truncate(pixels);
            Step {
                state: State::Resting(plate),
                answer: Ok(Ok(Answer::Closed {
                    codes,
                    preview,
                    cost,
                })),
            }
        }
        Err((line, fault)) => Step {
            state: State::Drawing(line),
            answer: Ok(Err(fault)),
        },
    }
}
