// An encoder that tries every code line. It asks of the machine where a code leads, what is shown there and what holds, and of the
// cost kind what its trait answers; it keeps no column and no cell.
ghost use Rattle.std.specs.Prelude.{◌<◌, ◌≤◌};

use cost::Cost;
use display::{DisplayMachine, Target};
use std::alloc::{AllocError, Global};

// A pixel: what is wanted there, and the one code that it may have if it is pinned.
#[derive(Clone, Copy)]
pub struct Wanted {
    pub target: Target,
    pub pin: Option<u8>,
}

// How a line ends: its cost, its last state, the state before, and the last code.
#[derive(Clone, Copy)]
struct Ending<C> {
    cost: C,
    state: u16,
    prev: u16,
    code: u8,
}

#[derive(Drop)]
pub struct Line<C: Drop> {
    pub codes: Vec<u8>,
    pub cost: C,
}

fn squared(byte: u8, level: u16) -> u32
    requires { level < 16 }
    ensures { result ≤ 225 }
{
    let difference = u32::from(byte / 16).abs_diff(u32::from(level));
    difference * difference
}

fn error(target: Target, colour: u16) -> u32 {
    squared(target.red, colour / 256 % 16)
        + squared(target.green, colour / 16 % 16)
        + squared(target.blue, colour % 16)
}

// The line with one code more, if the pixel may have that code and it leads on.
fn extended<M: DisplayMachine, C: Cost>(
    machine: &M,
    line: Ending<C>,
    pixel: Wanted,
    code: u8,
) -> Option<Ending<C>> {
    if pixel.pin.is_some_and(|pin| pin != code) {
        return None;
    }
    let state = machine.step(line.state, code)?;
    let error = error(pixel.target, machine.shown(state));
    Some(Ending {
        cost: line.cost.join(C::price(error, machine.holds(code))),
        state,
        prev: line.state,
        code,
    })
}

// How many code lines are as long as these pixels. A line's number has its codes as digits, that of the first pixel the lowest.
fn count_code_lines<M: DisplayMachine>(machine: &M, wanted: &[Wanted]) -> u64 {
    let codes = u64::from(machine.codes());
    u32::try_from(wanted.len()).map_or(u64::MAX, |pixels| codes.saturating_pow(pixels))
}

// How the code line of this number ends, if it is legal and keeps its pins.
fn ending_of<M: DisplayMachine, C: Cost>(
    machine: &M,
    wanted: &[Wanted],
    number: u64,
) -> Option<Ending<C>> {
    let codes = u64::from(machine.codes());
    let mut rest = number;
    let mut line = Ending {
        cost: C::zero(),
        state: machine.start(),
        prev: 0,
        code: 0,
    };
    for pixel in wanted {
        let code = rest.checked_rem(codes)? as u8;
        line = extended(machine, line, *pixel, code)?;
        rest /= codes;
    }
    Some(line)
}

// Costs have no order but what `at_most` answers, so none can be derived. The cheaper goes first; of equals the one with the lower last state, then with the lower state before, then with the lower code.
fn goes_first<C: Cost>(x: Ending<C>, y: Ending<C>) -> bool {
    let no_dearer = x.cost.at_most(y.cost);
    if no_dearer && y.cost.at_most(x.cost) {
        (x.state, x.prev, x.code) < (y.state, y.prev, y.code)
    } else {
        no_dearer
    }
}

// How the first of all legal lines that keep their pins ends, of those to one state if one is given.
fn first_ending<M: DisplayMachine, C: Cost>(
    machine: &M,
    wanted: &[Wanted],
    end: Option<u16>,
) -> Option<Ending<C>> {
    (0..count_code_lines(machine, wanted))
        .filter_map(|number| ending_of(machine, wanted, number))
        .filter(|line: &Ending<C>| end.is_none_or(|end| end == line.state))
        .reduce(|best, new| if goes_first(best, new) { best } else { new })
}

// Whether there is a legal line at all that keeps its pins.
pub fn has_line<M: DisplayMachine, C: Cost>(machine: &M, wanted: &[Wanted]) -> bool {
    (0..count_code_lines(machine, wanted)).any(|number| ending_of::<M, C>(
        machine, wanted, number,
    ).is_some())
}

// How many legal lines that keep their pins cost at most this.
pub fn count_lines<M: DisplayMachine, C: Cost>(machine: &M, wanted: &[Wanted], limit: C) -> usize {
    (0..count_code_lines(machine, wanted))
        .filter_map(|number| ending_of(machine, wanted, number))
        .filter(|line: &Ending<C>| line.cost.at_most(limit))
        .count()
}

// The cheapest legal line that keeps the pins. Its last step is that of the first of all lines, and the step before is that of the
// first of all lines, one pixel shorter, to the state that was found.
pub fn cheapest_line<M: DisplayMachine, C: Cost>(
    heap: Global,
    machine: &M,
    wanted: &[Wanted],
) -> Result<Option<Line<C>>, AllocError> {
    let last: Option<Ending<C>> = first_ending(machine, wanted, None);
    let Some(last) = last else {
        return Ok(None);
    };
    let mut codes = vec![in heap; 0u8; wanted.len()]?;
    let mut state = last.state;
    // By number: each step asks for the pixels up to its own. Over iter_mut().enumerate().rev() the end of that range is not proved.
    for pixel in (0..wanted.len()).rev() {
        let step: Option<Ending<C>> = first_ending(machine, &wanted[..=pixel], Some(state));
        if let Some(step) = step {
            codes[pixel] = step.code;
            state = step.prev;
        }
    }
    Ok(Some(Line {
        codes,
        cost: last.cost,
    }))
}
