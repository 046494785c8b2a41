// A line of targets: started and filled, and drawn on a plate of its own.
#![tactic(auto)]

mod error;
mod filled;

ghost use Rattle.std.specs.Prelude.{◌≡◌, ◌+◌, ◌*◌, length, IfOk};
ghost use Rattle.one_line.specs.Lines.{Draws};

use cost::Cost;
use display::DisplayMachine;
pub use error::DrawError;
pub use filled::filled_line;
use lines::Fault;
use std::alloc::{AllocError, Global};
use trellis::{Plate, Report};
use viterbi::{Cell, unreached};

// The cost of a line, and what its plate came to.
#[derive(Clone, Copy)]
pub struct Figures<C> {
    pub cost: C,
    pub report: Report<C>,
}

// Cells for a line of this width: a column for each pixel, and column 0. What they hold is left open.
pub fn line_cells<M: DisplayMachine, C: Cost>(
    heap: Global,
    machine: &M,
    width: u16,
) -> Result<Vec<Cell<C>>, AllocError>
    ensures { IfOk result (λ cells. length cells.items ≡ (width + 1) * (M.meaning machine.now).states) }
{
    let blank = unreached();
    vec![in heap; blank; (usize::from(width) + 1) * usize::from(machine.states())]
}

// Draws the cheapest line of targets, three bytes each: start on a new plate, a pixel for each target, close, report.
// Writes its codes and its preview to the fronts of the buffers, and answers its figures. A refusal writes to neither.
pub fn draw_line<M: DisplayMachine, C: Cost>(
    machine: &M,
    cells: &mut [Cell<C>],
    targets: &[u8],
    codes: &mut [u8],
    preview: &mut [u16],
) -> Result<Figures<C>, Fault>
    ensures { Draws (M.meaning machine.now) C.kind (length cells.old) targets.now codes.old preview.old result codes.new preview.new }
{
    let line = match filled_line(machine, cells, Plate::new(), &[], targets) {
        Ok(line) => line,
        Err((plate, fault)) => {
            let _ = plate.report();
            return Err(fault);
        }
    };
    match line.close(machine, cells, codes, preview) {
        Ok((plate, cost)) => Ok(Figures {
            cost,
            report: plate.report(),
        }),
        Err((line, fault)) => {
            let _ = line.abandon().report();
            Err(fault)
        }
    }
}
