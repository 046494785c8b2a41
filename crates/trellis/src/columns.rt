// Columns of cells, written in place.
// Each function asks for the room that it writes in: column 0, the two columns of a pixel, or the next one. A struct would carry each of these facts to one or two calls.
ghost use Rattle.std.specs.Prelude.{◌≡◌, ◌+◌, ◌*◌, ◌≤◌, length, replicate, is_some, Some, None};
ghost use Rattle.viterbi.specs.Columns.{any_below, blank, next_column, tried, tried_codes};
ghost use Rattle.trellis.specs.Bids.{indexed, offer};
ghost use Rattle.trellis.specs.Cells.{begun, extended};
ghost use Rattle.trellis.specs.Stages.{permitted, stage};

use cost::Cost;
use display::{DisplayMachine, Levels};
use lines::pixel_price;
use viterbi::{Cell, unreached};

// By `fill_with`: `fill` writes clones and asks that cloning never fails, and nothing says either of a cost.
fn clear<C: Cost>(column: &mut [Cell<C>])
    ensures { column.new ≡ replicate (length column.old) (blank C.kind) }
{
    let empty = unreached();
    column.fill_with(|| empty);
}

// Writes column 0, in which the start alone is reached, for nothing.
fn write_first<M: DisplayMachine, C: Cost>(machine: &M, cells: &mut [Cell<C>])
    requires { (M.meaning machine.now).states ≤ length cells.old }
    ensures { cells.new ≡ begun (M.meaning machine.now) C.kind cells.old }
{
    let states = usize::from(machine.states());
    let start = usize::from(machine.start());
    let column = &mut cells[0..states];
    clear(column);
    column[start] = Cell {
        reached: true,
        ..unreached()
    };
}

// A bid takes a cell that is free or held at a greater cost, so at a tie the first bid keeps it.
fn settle<C: Cost>(cell: &mut Cell<C>, s: u16, code: u8, bid: C)
    ensures { cell.new ≡ tried C.kind s code (Some bid) cell.old }
{
    if !(cell.reached && cell.cost.at_most(bid)) {
        *cell = Cell {
            reached: true,
            cost: bid,
            prev: s,
            code,
        };
    }
}

// A pixel that is added: what is wanted of it, and the one code that it may have, if it is pinned.
#[derive(Drop)]
pub(crate) struct Pixel<'a, M> {
    pub(crate) machine: &'a M,
    pub(crate) wanted: Levels,
    pub(crate) pin: Option<u8>,
}

impl<'a, M: DisplayMachine> Pixel<'a, M> {
    // State s, reached at this cost, bids by one code for the next column.
    fn bid_code<C: Cost>(&self, next: &mut [Cell<C>], s: u16, cost: C, code: u8)
        requires { (M.meaning self.now.machine.now).states ≤ length next.old }
        ensures { next.new ≡ indexed (λ t. tried C.kind s code (offer C.kind cost (stage (M.meaning self.now.machine.now) C.kind self.now.wanted None) t s code)) next.old }
    {
        let Some(t) = self.machine.step(s, code) else {
            return;
        };
        let bid = cost.join(pixel_price(self.machine, self.wanted, code, t));
        settle(&mut next[usize::from(t)], s, code, bid);
    }

    // The same by every permitted code, in order. Of a pinned pixel only the pin's code is looked at.
    fn bid<C: Cost>(&self, next: &mut [Cell<C>], s: u16, cost: C)
        requires { (M.meaning self.now.machine.now).states ≤ length next.old }
        ensures { next.new ≡ indexed (λ t. tried_codes C.kind s (offer C.kind cost (stage (M.meaning self.now.machine.now) C.kind self.now.wanted self.now.pin) t s) (M.meaning self.now.machine.now).codes) next.old }
    {
        match self.pin {
            Some(code) => self.bid_code(next, s, cost, code),
            None => {
                // A machine's codes are numbers: there is nothing to go over but their range.
                for code in 0..self.machine.codes() {
                    self.bid_code(next, s, cost, code);
                }
            }
        }
    }

    // Writes the next column from this one.
    fn write<C: Cost>(&self, column: &[Cell<C>], next: &mut [Cell<C>])
        requires from { length column.now ≡ (M.meaning self.now.machine.now).states }
        requires to { length next.old ≡ (M.meaning self.now.machine.now).states }
        ensures { next.new ≡ next_column C.kind (M.meaning self.now.machine.now).states (M.meaning self.now.machine.now).codes column.now (stage (M.meaning self.now.machine.now) C.kind self.now.wanted self.now.pin) }
    {
        clear(next);
        // By `as`: a column has a cell for each state, and a u16 counts the states.
        for (s, cell) in column.iter().enumerate() {
            if cell.reached {
                self.bid(next, s as u16, cell.cost);
            }
        }
    }
}

// Writes column n + 1 from column n, and no other cell.
fn write_next<M: DisplayMachine, C: Cost>(cells: &mut [Cell<C>], n: usize, pixel: &Pixel<'_, M>)
    requires { n * (M.meaning pixel.now.machine.now).states + 2 * (M.meaning pixel.now.machine.now).states ≤ length cells.old }
    ensures { cells.new ≡ extended (M.meaning pixel.now.machine.now) C.kind pixel.now.wanted pixel.now.pin n cells.old }
{
    let states = usize::from(pixel.machine.states());
    let (_, both) = cells.split_at_mut(n * states);
    let (column, after) = both.split_at_mut(states);
    pixel.write(column, &mut after[..states]);
}

// Whether some permitted code leads on from state s.
pub(crate) fn can_step<M: DisplayMachine>(machine: &M, s: u16, pin: Option<u8>) -> bool
    ensures { result ≡ any_below (M.meaning machine.now).codes (λ c. is_some (permitted (M.meaning machine.now) pin s c)) }
{
    match pin {
        Some(code) => machine.step(s, code).is_some(),
        None => (0..machine.codes()).any(|code| machine.step(s, code).is_some()),
    }
}

// Columns over lent cells.
#[derive(Drop)]
pub(crate) struct Trellis<'a, C: Copy> {
    pub(crate) cells: &'a mut [Cell<C>],
}

impl<'a, C: Cost> Trellis<'a, C> {
    pub(crate) fn begin<M: DisplayMachine>(&mut self, machine: &M)
        requires { (M.meaning machine.now).states ≤ length self.old.cells.now }
        ensures cells { self.new.cells.now ≡ begun (M.meaning machine.now) C.kind self.old.cells.now }
        ensures lender { self.new.cells.ghost_name ≡ self.old.cells.ghost_name }
    {
        write_first(machine, self.cells);
    }

    pub(crate) fn extend<M: DisplayMachine>(&mut self, n: usize, pixel: &Pixel<'_, M>)
        requires { n * (M.meaning pixel.now.machine.now).states + 2 * (M.meaning pixel.now.machine.now).states ≤ length self.old.cells.now }
        ensures cells { self.new.cells.now ≡ extended (M.meaning pixel.now.machine.now) C.kind pixel.now.wanted pixel.now.pin n self.old.cells.now }
        ensures lender { self.new.cells.ghost_name ≡ self.old.cells.ghost_name }
    {
        write_next(self.cells, n, pixel);
    }
}
