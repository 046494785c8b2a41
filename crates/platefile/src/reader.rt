// The lines of a plate file, one after another.
ghost use Rattle.std.specs.Prelude.{◌≡◌, ◌/◌, length, drop};
ghost use Rattle.records.specs.Cutting.{Cuts};
ghost use Rattle.records.specs.Letters.{meaning_of};
ghost use Rattle.records.specs.declared.record.Stage.{Stage};
ghost use Rattle.platefile.specs.Drawns.{DrawnRight};
ghost use Rattle.one_line.specs.Pixels.{pixels_of_line};
ghost use Rattle.platefile.specs.Reading.{FoundRight, LineFound, NextRight, PinnedRight, Shortens};

use crate::drawing::{DrawnLine, LineRecord, draw_line};
use crate::error::FileError;
use cost::Cost;
use one_line::DrawError;
use records::{
    AnyDisplay, FileFault, Heading, LineFault, PlateFault, Record, Stage, cut, pins_are_right,
};
use std::alloc::Global;
use trellis::{Plate, Report};
use viterbi::Cell;

// What is left of a file from the record at byte `at` on, which begins a line or ends the file.
pub struct Lines<'a, C> {
    pub(crate) input: &'a [u8],
    pub(crate) at: usize,
    pub(crate) heading: Heading,
    pub(crate) cells: Vec<Cell<C>>,
    pub(crate) plate: Plate<C>,
}

// What comes out next: a line and what is left after it, or the report at the end.
pub enum Next<'a, C> {
    Line {
        line: DrawnLine<C>,
        left: Lines<'a, C>,
    },
    Total(Report<C>),
}

// The input from byte `at` on; nothing where it ends before that.
fn rest_from(input: &[u8], at: usize) -> &[u8]
    ensures { result.now ≡ drop at input.now }
{
    input.get(at..).unwrap_or(&[])
}

impl<'a, C: Cost> Lines<'a, C> {
    // The record at byte `at`, for a reader at this stage.
    fn record_at(&self, at: usize, mut stage: Stage) -> Result<Record<'a>, FileFault>
        ensures { (after : Stage) × Cuts self.now.heading.colours self.now.heading.width stage at (drop at self.now.input.now) result after }
    {
        let rest = rest_from(self.input, at);
        cut(
            rest,
            at,
            &mut stage,
            self.heading.colours,
            self.heading.width,
        )
    }

    // The LN that must follow these pins at once.
    fn pinned_line(&self, at: usize, pins: &'a [u8]) -> Result<LineRecord<'a>, FileFault>
        ensures { PinnedRight C.kind self.now at pins.now result }
    {
        let Record::Line { targets } = self.record_at(at, Stage::Pinned)? else {
            // After a PN nothing but its LN may stand.
            unreachable()
        };
        Ok(LineRecord { at, pins, targets })
    }

    // The line that comes next, or none at the end of the file.
    fn next_record(&self) -> Result<Option<LineRecord<'a>>, FileFault>
        ensures { FoundRight C.kind self.now result }
    {
        let at = self.at;
        match self.record_at(at, Stage::Lines)? {
            Record::Pins { pins } => {
                if !pins_are_right(self.heading.width, pins) {
                    return Err(PlateFault::OutOfRange { at }.into());
                }
                let line = self.pinned_line(at + (4 + pins.len()), pins)?;
                Ok(Some(line))
            }
            Record::Line { targets } => Ok(Some(LineRecord {
                at,
                pins: &[],
                targets,
            })),
            Record::End => {
                // Nothing may follow an EN.
                if self.input.len() != at + 4 {
                    return Err(PlateFault::Misplaced { at: at + 4 }.into());
                }
                Ok(None)
            }
            // No other record may stand among the lines.
            _ => unreachable(),
        }
    }

    // The next line or the end. A fault ends the file: it is matched, since a plate has to be let go by hand before `?`.
    pub fn next(self, heap: Global) -> Result<Next<'a, C>, FileError>
        ensures out { NextRight C.kind self.entry result }
        ensures shortens { Shortens self.entry result }
    {
        match self.next_record() {
            Ok(Some(line)) => self.draw(heap, line),
            Ok(None) => Ok(Next::Total(self.report())),
            Err(fault) => {
                self.abandon();
                Err(fault.into())
            }
        }
    }

    // Draws the line that comes next.
    fn draw(self, heap: Global, line: LineRecord<'_>) -> Result<Next<'a, C>, FileError>
        requires { LineFound C.kind self line }
        ensures out { NextRight C.kind self.entry result }
        ensures shortens { Shortens self.entry result }
    {
        let Lines {
            input,
            at: _,
            heading,
            mut cells,
            plate,
        } = self;
        let (plate, drawn) = draw_any(heap, &heading.display, cells.as_mut_slice(), plate, line);
        match drawn {
            Ok(drawn) => {
                let left = Lines {
                    input,
                    at: line.at + (4 + line.targets.len()),
                    heading,
                    cells,
                    plate,
                };
                Ok(Next::Line { line: drawn, left })
            }
            Err(error) => {
                // The plate is the one before: a line that was refused does not count.
                let report = plate.report();
                match error {
                    DrawError::Refused(fault) => {
                        let refused = LineFault {
                            fault,
                            line: report.lines,
                            at: line.at,
                        };
                        Err(FileFault::from(PlateFault::from(refused)).into())
                    }
                    DrawError::NoMemory(lack) => Err(lack.into()),
                }
            }
        }
    }

    // What the plate came to.
    fn report(self) -> Report<C>
        ensures { result ≡ record { lines = self.entry.plate.lines; total = self.entry.plate.total } }
    {
        let Lines {
            input: _,
            at: _,
            heading: _,
            cells: _,
            plate,
        } = self;
        plate.report()
    }

    // Leaves the rest of the file unread.
    pub fn abandon(self) {
        let _ = self.report();
    }
}

// The display is taken apart once a line, so that each machine has its own inner loops.
fn draw_any<C: Cost>(
    heap: Global,
    display: &AnyDisplay,
    cells: &mut [Cell<C>],
    plate: Plate<C>,
    line: LineRecord<'_>,
) -> (Plate<C>, Result<DrawnLine<C>, DrawError>)
    ensures { DrawnRight (meaning_of display.now) C.kind (length cells.old) (length line.entry.targets.now / 3) (pixels_of_line line.entry.pins.now line.entry.targets.now) plate result.0 result.1 }
{
    match display {
        AnyDisplay::Ham(ham) => draw_line(heap, ham, cells, plate, line),
        AnyDisplay::HalfBrite(half_brite) => draw_line(heap, half_brite, cells, plate, line),
        AnyDisplay::Fill(fill) => draw_line(heap, fill, cells, plate, line),
    }
}
