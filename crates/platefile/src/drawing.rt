// A line of a file, started, filled and closed.
ghost use Rattle.std.specs.Prelude.{◌≡◌, ◌/◌, List, length};
ghost use Rattle.run.specs.Account.{Wanted};
ghost use Rattle.one_line.specs.Filled.{Full};
ghost use Rattle.one_line.specs.Pixels.{pixels_of_line};
ghost use Rattle.platefile.specs.Drawns.{DrawnRight};

use cost::Cost;
use display::DisplayMachine;
use lines::Fault;
use one_line::{DrawError, filled_line};
use run::{buffers, close_into};
use std::alloc::Global;
use trellis::{OpenLine, Plate};
use viterbi::Cell;

// A line as it stands in the file: the byte at which its LN begins, the body of the PN before it, or nothing, and the LN's.
#[derive(Clone, Copy)]
pub(crate) struct LineRecord<'a> {
    pub(crate) at: usize,
    pub(crate) pins: &'a [u8],
    pub(crate) targets: &'a [u8],
}

// A line that was drawn.
#[derive(Drop)]
pub struct DrawnLine<C> {
    pub number: u16,
    pub cost: C,
    pub codes: Vec<u8>,
    pub preview: Vec<u16>,
}

// Closes the line of this number, which has all its pixels. The plate is handed on in each case.
fn close_line<M: DisplayMachine, C: Cost>(
    heap: Global,
    machine: &M,
    cells: &[Cell<C>],
    line: OpenLine<C>,
    width: usize,
    number: u16,
) -> (Plate<C>, Result<DrawnLine<C>, DrawError>)
    requires { number ≡ line.plate.lines }
    ensures { (pixels : List Wanted) → Full (M.meaning machine.now) C.kind width pixels line cells.now → DrawnRight (M.meaning machine.now) C.kind (length cells.now) width pixels line.plate result.0 result.1 }
{
    let (mut codes, mut preview) = match buffers(heap, width, width) {
        Ok(made) => made,
        Err(lack) => return (line.abandon(), Err(lack.into())),
    };
    match close_into(machine, cells, line, &mut codes, &mut preview) {
        Ok((plate, cost)) => {
            let drawn = DrawnLine {
                number,
                cost,
                codes,
                preview,
            };
            (plate, Ok(drawn))
        }
        Err((line, fault)) => (line.abandon(), Err(fault.into())),
    }
}

// Draws a line. One that is refused is abandoned.
// The plate can neither be dropped nor copied, so it is handed on in each case.
pub(crate) fn draw_line<M: DisplayMachine, C: Cost>(
    heap: Global,
    machine: &M,
    cells: &mut [Cell<C>],
    plate: Plate<C>,
    line: LineRecord<'_>,
) -> (Plate<C>, Result<DrawnLine<C>, DrawError>)
    ensures { DrawnRight (M.meaning machine.now) C.kind (length cells.old) (length line.entry.targets.now / 3) (pixels_of_line line.entry.pins.now line.entry.targets.now) plate result.0 result.1 }
{
    let number = plate.lines();
    match filled_line(machine, cells, plate, line.pins, line.targets) {
        Ok(filled) => {
            let width = line.targets.len() / 3;
            close_line(heap, machine, cells, filled, width, number)
        }
        Err((plate, fault)) => (plate, Err(fault.into())),
    }
}
