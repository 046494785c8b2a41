// The calls themselves, with the fuse: what a refused call gives back and leaves, and what close does with cells and buffers that
// a run never lends it.
ghost use Rattle.std.specs.Prelude.{◌<◌};

use crate::fuse_calls::{BURNT_TARGET, DARK_TARGET, FUSE, GLOW_TARGET};
use crate::misses::Misses;
use display::{DisplayMachine, Target};
use lines::Fault;
use run::buffers;
use std::process::Abort;
use std::test::Fail;
use trellis::{OpenLine, Plate, Report};
use viterbi::Cell;

// A cell as an earlier use could have left it.
const LITTER: Cell<Misses> = Cell {
    reached: true,
    cost: Misses { pixels: 0 },
    prev: 1,
    code: 1,
};

const UNREACHED: Cell<Misses> = Cell {
    reached: false,
    cost: Misses { pixels: 0 },
    prev: 0,
    code: 0,
};

fn check_fault(rt: &impl Abort, fault: Fault, number: u8, pixel: usize) -> Result<(), Fail> {
    assert_eq!(rt; fault.number(), number);
    assert_eq!(rt; fault.pixel(), pixel);
    Ok(())
}

// A line on a plate, which is let go if it cannot be started.
fn started(
    plate: Plate<Misses>,
    cells: &mut [Cell<Misses>],
    width: u16,
) -> Result<OpenLine<Misses>, Fail> {
    plate.start(&FUSE, cells, width).map_err(|(plate, fault)| {
        let _ = plate.report();
        Fail::new(fault)
    })
}

// The line with one pixel more, or let go if that is refused.
fn with_pixel(
    mut line: OpenLine<Misses>,
    cells: &mut [Cell<Misses>],
    target: Target,
) -> Result<OpenLine<Misses>, Fail> {
    match line.pixel(&FUSE, cells, target) {
        Ok(()) => Ok(line),
        Err(fault) => {
            let _ = line.abandon().report();
            Err(Fail::new(fault))
        }
    }
}

// A line of width 2 on which 700 and f00 are wanted, so that codes 1 1 miss nothing. Its cells are 0 to 2 in column 0, 3 to 5 in
// column 1 and 6 to 8 in column 2, and the way back goes from cell 8 to cell 4 and cell 0.
fn two_pixels(cells: &mut [Cell<Misses>]) -> Result<OpenLine<Misses>, Fail> {
    let line = started(Plate::new(), cells, 2)?;
    let line = with_pixel(line, cells, GLOW_TARGET)?;
    with_pixel(line, cells, BURNT_TARGET)
}

// A plate of one line, which misses its one pixel.
fn one_line(cells: &mut [Cell<Misses>]) -> Result<Plate<Misses>, Fail> {
    let line = started(Plate::new(), cells, 1)?;
    let line = with_pixel(line, cells, BURNT_TARGET)?;
    match line.close(&FUSE, cells, &mut [0], &mut [0]) {
        Ok((plate, _)) => Ok(plate),
        Err((line, fault)) => {
            let _ = line.abandon().report();
            Err(Fail::new(fault))
        }
    }
}

// The fault of a close, and what the plate came to after the line was abandoned.
fn refused_close(
    line: OpenLine<Misses>,
    cells: &[Cell<Misses>],
    codes: &mut [u8],
    preview: &mut [u16],
) -> Result<(Fault, Report<Misses>), Fail> {
    match line.close(&FUSE, cells, codes, preview) {
        Ok((plate, _)) => {
            let _ = plate.report();
            Err(Fail::new("the close was taken"))
        }
        Err((line, fault)) => Ok((fault, line.abandon().report())),
    }
}

// A close after a cell was overwritten is refused by 11 and writes nothing; the line can be abandoned.
fn check_broken(rt: &impl Abort, place: usize, cell: Cell<Misses>) -> Result<(), Fail>
    requires { place < 9 }
{
    let mut cells = [LITTER; 9];
    let mut codes = [9u8; 2];
    let mut preview = [9u16; 2];
    let line = two_pixels(&mut cells)?;
    cells[place] = cell;
    let (fault, report) = refused_close(line, &cells, &mut codes, &mut preview)?;
    check_fault(rt, fault, 11, 2)?;
    assert_eq!(rt; report.lines, 0);
    assert_eq!(rt; codes, [9, 9]);
    assert_eq!(rt; preview, [9, 9]);
    Ok(())
}

// The start leaves the plate with its line, and the cells as they were; the plate then takes another start.
#[test]
fn a_refused_start(rt: HostRuntime) -> Result<(), Fail> {
    let mut cells = [LITTER; 9];
    let plate = one_line(&mut cells)?;
    let before = cells;
    match plate.start(&FUSE, &mut cells, 3) {
        Ok(line) => {
            let _ = line.abandon().report();
            Err(Fail::new("started with too few cells"))
        }
        Err((plate, fault)) => {
            let line = started(plate, &mut [LITTER; 6], 1)?;
            let report = line.abandon().report();
            check_fault(&rt, fault, 3, 0)?;
            assert_eq!(rt; before, cells);
            assert_eq!(rt; report.lines, 1);
            assert_eq!(rt; report.total.pixels, 1);
            Ok(())
        }
    }
}

// Start writes column 0, and each pixel the next column; what lies behind stays.
#[test]
fn one_column_at_a_time(rt: HostRuntime) -> Result<(), Fail> {
    let mut cells = [LITTER; 9];
    let line = started(Plate::new(), &mut cells, 2)?;
    let start_stays = cells[3..9] == [LITTER; 6];
    let line = with_pixel(line, &mut cells, GLOW_TARGET)?;
    let pixel_stays = cells[6..9] == [LITTER; 3];
    let pixels = line.pixels();
    let _ = line.abandon().report();
    assert!(rt; start_stays);
    assert!(rt; pixel_stays);
    assert_eq!(rt; pixels, 1);
    Ok(())
}

// Once the fuse is burnt no pixel can follow; the line and the cells stay as they were.
#[test]
fn a_refused_pixel(rt: HostRuntime) -> Result<(), Fail> {
    let mut cells = [LITTER; 12];
    let mut line = started(Plate::new(), &mut cells, 3)?;
    let first = line.pin(&FUSE, &mut cells, GLOW_TARGET, 1);
    let second = line.pin(&FUSE, &mut cells, BURNT_TARGET, 1);
    let before = cells;
    let third = line.pixel(&FUSE, &mut cells, DARK_TARGET);
    let pixels = line.pixels();
    let _ = line.abandon().report();
    assert!(rt; first.is_ok());
    assert!(rt; second.is_ok());
    assert_eq!(rt; before, cells);
    assert_eq!(rt; pixels, 2);
    match third {
        Ok(()) => Err(Fail::new("the pixel was taken")),
        Err(fault) => check_fault(&rt, fault, 8, 2),
    }
}

// Fewer cells than at the start: pixel and close are refused, and name how many pixels the line has.
#[test]
fn fewer_cells_for_a_pixel(rt: HostRuntime) -> Result<(), Fail> {
    let mut cells = [LITTER; 9];
    let line = started(Plate::new(), &mut cells, 2)?;
    let mut line = with_pixel(line, &mut cells, GLOW_TARGET)?;
    let answer = line.pixel(&FUSE, &mut cells[0..8], BURNT_TARGET);
    let pixels = line.pixels();
    let _ = line.abandon().report();
    assert_eq!(rt; pixels, 1);
    match answer {
        Ok(()) => Err(Fail::new("the pixel was taken")),
        Err(fault) => check_fault(&rt, fault, 3, 1),
    }
}

#[test]
fn fewer_cells_for_a_close(rt: HostRuntime) -> Result<(), Fail> {
    let mut cells = [LITTER; 9];
    let line = two_pixels(&mut cells)?;
    let (fault, report) = refused_close(line, &cells[0..8], &mut [0; 2], &mut [0; 2])?;
    check_fault(&rt, fault, 3, 2)?;
    assert_eq!(rt; report.lines, 0);
    Ok(())
}

// No code leads from dark to burnt, and code 0 does not lead from glowing to burnt.
#[test]
fn a_step_that_the_machine_does_not_make(rt: HostRuntime) -> Result<(), Fail> {
    let mut cell = LITTER;
    cell.prev = 0;
    check_broken(&rt, 8, cell)?;
    let mut cell = LITTER;
    cell.code = 0;
    check_broken(&rt, 8, cell)
}

// The way back comes to a cell that is not reached, in the middle and at the start.
#[test]
fn a_way_back_that_is_not_reached(rt: HostRuntime) -> Result<(), Fail> {
    check_broken(&rt, 4, UNREACHED)?;
    check_broken(&rt, 0, UNREACHED)
}

#[test]
fn no_reached_cell_in_the_last_column(rt: HostRuntime) -> Result<(), Fail> {
    let mut cells = [LITTER; 9];
    let mut codes = [9u8; 2];
    let mut preview = [9u16; 2];
    let line = two_pixels(&mut cells)?;
    cells[6] = UNREACHED;
    cells[7] = UNREACHED;
    cells[8] = UNREACHED;
    let (fault, _) = refused_close(line, &cells, &mut codes, &mut preview)?;
    check_fault(&rt, fault, 11, 2)?;
    assert_eq!(rt; codes, [9, 9]);
    assert_eq!(rt; preview, [9, 9]);
    Ok(())
}

#[test]
fn buffers_longer_than_the_line(rt: HostRuntime) -> Result<(), Fail> {
    let mut cells = [LITTER; 9];
    let mut codes = [9u8; 4];
    let mut preview = [9u16; 3];
    let line = two_pixels(&mut cells)?;
    match line.close(&FUSE, &cells, &mut codes, &mut preview) {
        Ok((plate, cost)) => {
            let report = plate.report();
            assert_eq!(rt; codes, [1, 1, 9, 9]);
            assert_eq!(rt; preview, [0x700, 0xf00, 9]);
            assert_eq!(rt; cost.pixels, 0);
            assert_eq!(rt; report.lines, 1);
            Ok(())
        }
        Err((line, fault)) => {
            let _ = line.abandon().report();
            Err(Fail::new(fault))
        }
    }
}

// A preview that is one too short: neither buffer is written.
#[test]
fn a_buffer_shorter_than_the_line(rt: HostRuntime) -> Result<(), Fail> {
    let mut cells = [LITTER; 9];
    let mut codes = [9u8; 2];
    let mut preview = [9u16; 1];
    let line = two_pixels(&mut cells)?;
    let (fault, report) = refused_close(line, &cells, &mut codes, &mut preview)?;
    check_fault(&rt, fault, 9, 2)?;
    assert_eq!(rt; report.lines, 0);
    assert_eq!(rt; codes, [9, 9]);
    assert_eq!(rt; preview, [9]);
    Ok(())
}

#[test]
fn buffers_of_the_lengths_asked_for(rt: HostRuntime) -> Result<(), Fail> {
    let (codes, preview) = buffers(rt.alloc(), 3, 2)?;
    assert_eq!(rt; codes.as_slice(), [0u8; 3].as_slice());
    assert_eq!(rt; preview.as_slice(), [0u16; 2].as_slice());
    Ok(())
}
