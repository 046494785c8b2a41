// The columns of an open line, read: whether one more pixel is possible, the pick, and the way back. Pixel i leads from column i to column i + 1.
// Anybody may have written the cells, so nothing that they say is taken on trust.
ghost use Rattle.std.specs.Prelude.{◌≡◌, ◌+◌, ◌*◌, ◌≤◌, ◌&&◌, ◌++◌, length, drop};
ghost use Rattle.display.specs.declared.colour.Levels.{Levels};
ghost use Rattle.lines.specs.Checks.{answer};
ghost use Rattle.viterbi.specs.Columns.{at, cheaper, leads, pick};
ghost use Rattle.trellis.specs.Calls.{broken_cells, picked_state};
ghost use Rattle.trellis.specs.Cells.{can_extend, cell_at, codes_back, colours_back, column_at, sound_back};

use crate::columns::can_step;
use cost::Cost;
use display::DisplayMachine;
use lines::Fault;
use viterbi::{Cell, unreached};

// The cell of state s. A cell may name any state as the one before it: one past the column's end counts as not reached.
fn cell_of<C: Cost>(column: &[Cell<C>], s: u16) -> Cell<C>
    ensures { result ≡ at C.kind column.now s }
{
    column.get(usize::from(s)).copied().unwrap_or(unreached())
}

// The cheaper of the state kept so far and state s, which has to be reached; at a tie the one kept so far.
fn keep_cheaper<C: Cost>(column: &[Cell<C>], kept: Option<u16>, s: u16) -> Option<u16>
    ensures { result ≡ cheaper C.kind column.now kept s }
{
    let cell = cell_of(column, s);
    if !cell.reached {
        return kept;
    }
    match kept {
        Some(best) if cell_of(column, best).cost.at_most(cell.cost) => kept,
        _ => Some(s),
    }
}

// Whether the cell of state s is reached, by a step that the machine makes.
fn step_is_sound<M: DisplayMachine, C: Cost>(machine: &M, cell: Cell<C>, s: u16) -> bool
    ensures { result ≡ (cell.reached && leads ((M.meaning machine.now).step cell.prev cell.code) s) }
{
    cell.reached && machine.step(cell.prev, cell.code) == Some(s)
}

// Column 0 and one more for each pixel, all of them among the cells.
#[derive(Drop)]
pub(crate) struct Columns<'a, M: DisplayMachine, C> {
    pub(crate) machine: &'a M,
    pub(crate) cells: &'a [Cell<C>],
    pub(crate) pixels: usize,
    ghost whole: { pixels * (M.meaning machine.now).states + (M.meaning machine.now).states ≤ length cells.now },
}

impl<'a, M: DisplayMachine, C: Cost> Columns<'a, M, C> {
    // Column n.
    fn column(&self, n: usize) -> &'a [Cell<C>]
        requires { n ≤ self.now.pixels }
        ensures { result.now ≡ column_at (M.meaning self.now.machine.now).states n self.now.cells.now }
    {
        let states = usize::from(self.machine.states());
        let first = n * states;
        &self.cells[first..first + states]
    }

    // The cell of state s in column n.
    fn cell(&self, n: usize, s: u16) -> Cell<C>
        requires { n ≤ self.now.pixels }
        ensures { result ≡ cell_at (M.meaning self.now.machine.now) C.kind n s self.now.cells.now }
    {
        cell_of(self.column(n), s)
    }

    // Whether some state of the last column is reached and a permitted code leads on from it, whatever levels are wanted.
    pub(crate) fn can_extend(&self, pin: Option<u8>) -> bool
        ensures { (wanted : Levels) → result ≡ can_extend (M.meaning self.now.machine.now) C.kind pin wanted self.now.pixels self.now.cells.now }
    {
        let machine = self.machine;
        let column = self.column(self.pixels);
        (0..machine.states())
            .zip(column)
            .any(|(s, cell)| cell.reached && can_step(machine, s, pin))
    }

    // Where the cheapest line ends: of equal costs the lower state goes first.
    pub(crate) fn pick(&self) -> Option<u16>
        ensures { result ≡ pick C.kind (column_at (M.meaning self.now.machine.now).states self.now.pixels self.now.cells.now) (M.meaning self.now.machine.now).states }
    {
        let column = self.column(self.pixels);
        // By `fold`: `min_by` asks for an Ordering, and a cost says `at_most` alone.
        (0..self.machine.states()).fold(None, |kept, s| keep_cheaper(column, kept, s))
    }

    // Whether every cell on the way back from this state of the last column is reached, by a step that the machine makes, and the way ends at the start.
    pub(crate) fn is_sound(&self, last: u16) -> bool
        ensures { result ≡ sound_back (M.meaning self.now.machine.now) C.kind self.now.cells.now self.now.pixels last }
    {
        let mut state = last;
        // A loop: `try_fold` would need two methods more, for the step back and for the start, since its closure's calls have a `requires`.
        for pixel in (0..self.pixels).rev() {
            let cell = self.cell(pixel + 1, state);
            if !step_is_sound(self.machine, cell, state) {
                return false;
            }
            state = cell.prev;
        }
        self.cell(0, state).reached && state == self.machine.start()
    }

    // The pick, if the way back from it is sound.
    pub(crate) fn sound_pick(&self) -> Result<u16, Fault>
        ensures { result ≡ answer (broken_cells (M.meaning self.now.machine.now) C.kind self.now.pixels self.now.cells.now) (picked_state (M.meaning self.now.machine.now) C.kind self.now.pixels self.now.cells.now) }
    {
        match self.pick() {
            Some(last) if self.is_sound(last) => Ok(last),
            _ => Err(Fault::BrokenCells { pixel: self.pixels }),
        }
    }

    // The cost in the cell of this state of the last column.
    pub(crate) fn cost(&self, last: u16) -> C
        ensures { result ≡ (cell_at (M.meaning self.now.machine.now) C.kind self.now.pixels last self.now.cells.now).cost }
    {
        self.cell(self.pixels, last).cost
    }

    // Writes the codes on the way back from this state of the last column, and the colours after each, to the fronts of the buffers.
    pub(crate) fn write_way_back(&self, last: u16, codes: &mut [u8], preview: &mut [u16])
        requires { (self.now.pixels ≤ length codes.old) × (self.now.pixels ≤ length preview.old) }
        ensures coded { codes.new ≡ codes_back (M.meaning self.now.machine.now) C.kind self.now.cells.now self.now.pixels last ++ drop self.now.pixels codes.old }
        ensures previewed { preview.new ≡ colours_back (M.meaning self.now.machine.now) C.kind self.now.cells.now self.now.pixels last ++ drop self.now.pixels preview.old }
    {
        let mut state = last;
        // By an index, which names the column too: of what is written through two `iter_mut` that are zipped a proof knows nothing.
        for pixel in (0..self.pixels).rev() {
            let cell = self.cell(pixel + 1, state);
            codes[pixel] = cell.code;
            preview[pixel] = self.machine.shown(state);
            state = cell.prev;
        }
    }
}
