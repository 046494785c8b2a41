// The calls on a plate. What can refuse is tested before anything is written.
// Each takes the machine and the cells: the caller lends the cells call by call (fixed memory, no heap), and in a struct that kept them what they hold would be lost to the proofs.
ghost use Rattle.std.specs.Prelude.{◌≡◌, ◌+◌, ◌*◌, ◌≤◌, length, Some, None};
ghost use Rattle.lines.specs.Checks.{answer};
ghost use Rattle.trellis.specs.Calls.{add_check, added, added_cells, close_check, closed, closed_codes, closed_preview, early_check, line_cost, line_empty, pixels_of, ready_check, start_check, started, started_cells, struck, too_few_cells, with_line};

use crate::columns::{Pixel, Trellis};
use crate::plate::{OpenLine, Plate, Report};
use crate::trace::Columns;
use cost::Cost;
use display::{DisplayMachine, Target};
use lines::Fault;
use viterbi::Cell;

// How many lines a plate holds.
const LINE_LIMIT: u16 = 1024;

// How wide a line may be.
pub const WIDEST: u16 = 640;

// Refuses where the cells do not hold a column for each pixel of the width and column 0.
fn check_cells<M: DisplayMachine>(
    machine: &M,
    cells: usize,
    width: u16,
    pixels: u16,
) -> Result<(), Fault>
    ensures { result ≡ answer (too_few_cells (M.meaning machine.now).states cells width pixels) tt }
{
    if cells < (usize::from(width) + 1) * usize::from(machine.states()) {
        return Err(Fault::TooFewCells {
            pixel: usize::from(pixels),
        });
    }
    Ok(())
}

impl<C: Cost> Plate<C> {
    // No lines, and total zero.
    pub fn new() -> Plate<C>
        ensures { result ≡ record { lines = 0; total = C.kind.zero } }
    {
        Plate {
            lines: 0,
            total: C::zero(),
        }
    }

    // The checks of start.
    fn check_start<M: DisplayMachine>(
        &self,
        machine: &M,
        cells: usize,
        width: u16,
    ) -> Result<(), Fault>
        ensures { result ≡ answer (start_check (M.meaning machine.now) cells self.now.lines width) tt }
    {
        if self.lines >= LINE_LIMIT {
            return Err(Fault::PlateFull);
        }
        if width == 0 || width > WIDEST {
            return Err(Fault::BadWidth);
        }
        check_cells(machine, cells, width, 0)
    }

    // Opens a line and writes column 0. A refusal gives the plate back.
    pub fn start<M: DisplayMachine>(
        self,
        machine: &M,
        cells: &mut [Cell<C>],
        width: u16,
    ) -> Result<OpenLine<C>, (Plate<C>, Fault)>
        ensures value { result ≡ started (M.meaning machine.now) C.kind self cells.old width }
        ensures cells { cells.new ≡ started_cells (M.meaning machine.now) C.kind self cells.old width }
    {
        match self.check_start(machine, cells.len(), width) {
            Ok(()) => {
                Trellis { cells }.begin(machine);
                Ok(OpenLine {
                    plate: self,
                    width,
                    left: width,
                })
            }
            Err(fault) => Err((self, fault)),
        }
    }

    // One line more. No plate comes near the count at which this stops.
    fn with_line(self, cost: C) -> Plate<C>
        ensures { result ≡ with_line C.kind self cost }
    {
        let Plate { lines, total } = self;
        Plate {
            lines: lines.saturating_add(1),
            total: total.join(cost),
        }
    }

    // How many lines are closed so far.
    pub fn lines(&self) -> u16
        ensures { result ≡ self.now.lines }
    {
        self.lines
    }

    // How many lines were closed, and their costs joined.
    pub fn report(self) -> Report<C>
        ensures { result ≡ record { lines = self.lines; total = self.total } }
    {
        let Plate { lines, total } = self;
        Report { lines, total }
    }
}

impl<C: Cost> OpenLine<C> {
    // How many pixels the line has so far.
    pub fn pixels(&self) -> u16
        ensures { result ≡ pixels_of self.now }
    {
        self.width.saturating_sub(self.left)
    }

    // Adds a pixel that may have every code, and writes the next column.
    pub fn pixel<M: DisplayMachine>(
        &mut self,
        machine: &M,
        cells: &mut [Cell<C>],
        target: Target,
    ) -> Result<(), Fault>
        ensures value { result ≡ answer (add_check (M.meaning machine.now) C.kind self.old cells.old target None) tt }
        ensures line { self.new ≡ added (M.meaning machine.now) C.kind self.old cells.old target None }
        ensures cells { cells.new ≡ added_cells (M.meaning machine.now) C.kind self.old cells.old target None }
    {
        self.add(machine, cells, target, None)
    }

    // Adds a pixel that may have this code alone, and writes the next column.
    pub fn pin<M: DisplayMachine>(
        &mut self,
        machine: &M,
        cells: &mut [Cell<C>],
        target: Target,
        code: u8,
    ) -> Result<(), Fault>
        ensures value { result ≡ answer (add_check (M.meaning machine.now) C.kind self.old cells.old target (Some code)) tt }
        ensures line { self.new ≡ added (M.meaning machine.now) C.kind self.old cells.old target (Some code) }
        ensures cells { cells.new ≡ added_cells (M.meaning machine.now) C.kind self.old cells.old target (Some code) }
    {
        self.add(machine, cells, target, Some(code))
    }

    // The checks of pixel and pin before the one on the cells' content.
    fn check_early<M: DisplayMachine>(
        &self,
        machine: &M,
        cells: usize,
        pin: Option<u8>,
    ) -> Result<(), Fault>
        ensures { result ≡ answer (early_check (M.meaning machine.now) cells self.now.width pin (pixels_of self.now)) tt }
    {
        let pixels = self.pixels();
        check_cells(machine, cells, self.width, pixels)?;
        let pixel = usize::from(pixels);
        if pixels >= self.width {
            return Err(Fault::LineFull { pixel });
        }
        match pin {
            Some(code) if code >= machine.codes() => Err(Fault::UnknownCode { pixel }),
            _ => Ok(()),
        }
    }

    // The checks of pixel and pin, whatever is wanted of the pixel.
    fn check_add<M: DisplayMachine>(
        &self,
        machine: &M,
        cells: &[Cell<C>],
        pin: Option<u8>,
    ) -> Result<(), Fault>
        ensures { (target : Target) → result ≡ answer (add_check (M.meaning machine.now) C.kind self.now cells.now target pin) tt }
    {
        self.check_early(machine, cells.len(), pin)?;
        let pixels = usize::from(self.pixels());
        let columns = Columns {
            machine,
            cells,
            pixels,
        };
        if !columns.can_extend(pin) {
            return Err(Fault::NoWay { pixel: pixels });
        }
        Ok(())
    }

    // Adds a pixel that may have the pin's code alone, or every code where there is no pin, and writes the next column.
    pub fn add<M: DisplayMachine>(
        &mut self,
        machine: &M,
        cells: &mut [Cell<C>],
        target: Target,
        pin: Option<u8>,
    ) -> Result<(), Fault>
        ensures value { result ≡ answer (add_check (M.meaning machine.now) C.kind self.old cells.old target pin) tt }
        ensures line { self.new ≡ added (M.meaning machine.now) C.kind self.old cells.old target pin }
        ensures cells { cells.new ≡ added_cells (M.meaning machine.now) C.kind self.old cells.old target pin }
    {
        self.check_add(machine, cells, pin)?;
        let pixels = usize::from(self.pixels());
        let pixel = Pixel {
            machine,
            wanted: target.levels(),
            pin,
        };
        Trellis { cells }.extend(pixels, &pixel);
        self.left -= 1;
        Ok(())
    }

    // Takes the last pixel away, with its pin.
    pub fn back(&mut self) -> Result<(), Fault>
        ensures value { result ≡ answer (line_empty (pixels_of self.old)) tt }
        ensures line { self.new ≡ struck self.old }
    {
        if self.left >= self.width {
            return Err(Fault::LineEmpty);
        }
        self.left += 1;
        Ok(())
    }

    // The checks of close before the one on the cells' content.
    fn check_ready<M: DisplayMachine>(
        &self,
        machine: &M,
        cells: usize,
        codes: usize,
        preview: usize,
    ) -> Result<(), Fault>
        ensures { result ≡ answer (ready_check (M.meaning machine.now) cells self.now.width codes preview (pixels_of self.now)) tt }
    {
        check_cells(machine, cells, self.width, self.pixels())?;
        let pixel = usize::from(self.pixels());
        if pixel == 0 {
            return Err(Fault::LineEmpty);
        }
        if codes < pixel || preview < pixel {
            return Err(Fault::ShortBuffer { pixel });
        }
        Ok(())
    }

    // The cheapest line's cost. Its codes and its preview are written to the fronts of the buffers; a refusal writes nothing.
    fn write_cheapest<M: DisplayMachine>(
        &self,
        machine: &M,
        cells: &[Cell<C>],
        codes: &mut [u8],
        preview: &mut [u16],
    ) -> Result<C, Fault>
        ensures value { result ≡ answer (close_check (M.meaning machine.now) C.kind self.now cells.now codes.old preview.old) (line_cost (M.meaning machine.now) C.kind self.now cells.now) }
        ensures coded { codes.new ≡ closed_codes (M.meaning machine.now) C.kind self.now cells.now codes.old preview.old }
        ensures previewed { preview.new ≡ closed_preview (M.meaning machine.now) C.kind self.now cells.now codes.old preview.old }
    {
        self.check_ready(machine, cells.len(), codes.len(), preview.len())?;
        // Made here and in check_add: a method would promise its three fields one by one, and each use here would carry them over.
        let pixels = usize::from(self.pixels());
        let columns = Columns {
            machine,
            cells,
            pixels,
        };
        let last = columns.sound_pick()?;
        columns.write_way_back(last, codes, preview);
        Ok(columns.cost(last))
    }

    // Picks the cheapest line, writes its codes and its preview to the fronts of the buffers, and rests the plate. A refusal writes nothing and gives the line back.
    // The buffers stay two: C lends them, of two types, and either may be longer than the line and than the other.
    pub fn close<M: DisplayMachine>(
        self,
        machine: &M,
        cells: &[Cell<C>],
        codes: &mut [u8],
        preview: &mut [u16],
    ) -> Result<(Plate<C>, C), (OpenLine<C>, Fault)>
        ensures value { result ≡ closed (M.meaning machine.now) C.kind self cells.now codes.old preview.old }
        ensures coded { codes.new ≡ closed_codes (M.meaning machine.now) C.kind self cells.now codes.old preview.old }
        ensures previewed { preview.new ≡ closed_preview (M.meaning machine.now) C.kind self cells.now codes.old preview.old }
    {
        match self.write_cheapest(machine, cells, codes, preview) {
            Ok(cost) => Ok((self.abandon().with_line(cost), cost)),
            Err(fault) => Err((self, fault)),
        }
    }

    // Drops the open line; the plate's lines and total stay.
    pub fn abandon(self) -> Plate<C>
        ensures { result ≡ self.plate }
    {
        let OpenLine {
            plate,
            width: _,
            left: _,
        } = self;
        plate
    }
}
