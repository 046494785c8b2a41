// A line of targets, started and filled.
ghost use Rattle.std.specs.Prelude.{◌≡◌, ◌+◌, ◌*◌, ◌/◌, ◌≤◌, [], reverse, length, None};
ghost use Rattle.lines.specs.Checks.{answer};
ghost use Rattle.run.specs.Agreement.{OpenRight};
ghost use Rattle.one_line.specs.Drawing.{blocked};
ghost use Rattle.one_line.specs.Filled.{FilledRight};
ghost use Rattle.one_line.specs.Pixels.{pixels_of_line};

use cost::Cost;
use display::{DisplayMachine, Target};
use lines::Fault;
use records::pin_at;
use trellis::{OpenLine, Plate};
use viterbi::Cell;

// Adds a pixel for each target to a line that has none, as far as none is refused.
fn fill_line<M: DisplayMachine, C: Cost>(
    machine: &M,
    cells: &mut [Cell<C>],
    line: &mut OpenLine<C>,
    pins: &[u8],
    targets: &[u8],
) -> Result<(), Fault>
    requires fits { length targets.now / 3 * (M.meaning machine.now).states + (M.meaning machine.now).states ≤ length cells.old }
    requires opened { OpenRight (M.meaning machine.now) C.kind (length targets.now / 3) [] line.old cells.old }
    ensures value { result ≡ answer (blocked (M.meaning machine.now) C.kind [] (pixels_of_line pins.now targets.now)) tt }
    ensures plate { line.new.plate ≡ line.old.plate }
    ensures drawn { blocked (M.meaning machine.now) C.kind [] (pixels_of_line pins.now targets.now) ≡ None → OpenRight (M.meaning machine.now) C.kind (length targets.now / 3) (reverse (pixels_of_line pins.now targets.now)) line.new cells.new }
{
    let (whole, _) = targets.as_chunks::<3>();
    for (pixel, bytes) in whole.iter().enumerate() {
        let target = Target::from(*bytes);
        line.add(machine, cells, target, pin_at(pins, pixel))?;
    }
    Ok(())
}

// Starts a line on the plate, as wide as there are targets, three bytes each, and adds a pixel for each, pinned as the
// body of a PN record says. A refusal abandons the line and gives the plate back. Bytes that are left over say nothing.
pub fn filled_line<M: DisplayMachine, C: Cost>(
    machine: &M,
    cells: &mut [Cell<C>],
    plate: Plate<C>,
    pins: &[u8],
    targets: &[u8],
) -> Result<OpenLine<C>, (Plate<C>, Fault)>
    ensures { FilledRight (M.meaning machine.now) C.kind (length cells.old) plate pins.now targets.now result cells.new }
{
    // Start refuses more pixels than a u16 counts, as it refuses the most that one counts.
    let width = u16::try_from(targets.len() / 3).unwrap_or(u16::MAX);
    let mut line = plate.start(machine, cells, width)?;
    match fill_line(machine, cells, &mut line, pins, targets) {
        Ok(()) => Ok(line),
        Err(fault) => Err((line.abandon(), fault)),
    }
}
