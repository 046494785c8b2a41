// The answers of the calls, held against the encoder that tries every line.
ghost use Rattle.std.specs.Prelude.{◌<◌};

use crate::chance::{ByChance, Chance};
use crate::encoder::{Wanted, cheapest_line, count_lines, has_line};
use cost::Cost;
use display::DisplayMachine;
use lines::Fault;
use run::{Answer, Call, Entry, run};
use run_tests::littered;
use std::alloc::{AllocError, AllocGlobal, Global};
use std::process::Abort;
use std::test::Fail;
use viterbi::Cell;

impl From<Wanted> for Call {
    fn from(pixel: Wanted) -> Call {
        let target = pixel.target;
        match pixel.pin {
            Some(code) => Call::Pin { target, code },
            None => Call::Pixel { target },
        }
    }
}

// The calls for one line: start, each pixel or pin, close.
fn calls_for(heap: Global, wanted: &[Wanted], width: u16) -> Result<Vec<Call>, AllocError> {
    let mut calls = vec![in heap; Call::Start { width }]?;
    calls.extend(wanted.iter().map(|pixel| Call::from(*pixel)))?;
    calls.push(Call::Close {
        codes: wanted.len(),
        preview: wanted.len(),
    })?;
    Ok(calls)
}

// A pixel is taken where some line leads on, and else refused by number 8.
fn check_pixel<C: Cost>(
    rt: &impl Abort,
    answer: &Result<Answer<C>, Fault>,
    leads_on: bool,
    pixels: usize,
) -> Result<(), Fail> {
    match answer {
        Ok(Answer::Taken) => {
            assert!(rt; leads_on);
            Ok(())
        },
        Err(fault) => {
            assert!(rt; !leads_on);
            assert_eq!(rt; fault.number(), 8);
            assert_eq!(rt; fault.pixel(), pixels);
            Ok(())
        }
        _ => Err(Fail::new("no answer of a pixel")),
    }
}

// The pixels that are taken, once their answers are compared. They follow the answer of start.
fn taken<M: DisplayMachine, C: Cost>(
    rt: &(impl Abort + AllocGlobal),
    machine: &M,
    wanted: &[Wanted],
    entries: &[Entry<C>],
) -> Result<Vec<Wanted>, Fail> {
    let mut line = Vec::new(rt.alloc());
    for (pixel, entry) in wanted.iter().zip(entries.iter().skip(1)) {
        let pixels = line.len();
        line.push(*pixel)?;
        let leads_on = has_line::<M, C>(machine, &line);
        check_pixel(rt, &entry.answer, leads_on, pixels)?;
        if !leads_on {
            line.truncate(pixels);
        }
    }
    Ok(line)
}

// What the codes show, as far as they are legal.
fn shown<M: DisplayMachine>(
    heap: Global,
    machine: &M,
    codes: &[u8],
) -> Result<Vec<u16>, AllocError> {
    let mut colours = Vec::new(heap);
    let mut state = machine.start();
    for code in codes {
        if let Some(next) = machine.step(state, *code) {
            colours.push(machine.shown(next))?;
            state = next;
        }
    }
    Ok(colours)
}

// Checks a closed line against the one that trying every line finds. Says how many lines cost so little.
fn check_closed<M: DisplayMachine, C: Cost>(
    rt: &(impl Abort + AllocGlobal),
    machine: &M,
    line: &[Wanted],
    codes: &[u8],
    cost: C,
) -> Result<usize, Fail> {
    let found = cheapest_line::<M, C>(rt.alloc(), machine, line)?;
    let Some(best) = found else {
        return Err(Fail::new("closed, and there is no line"));
    };
    assert_eq!(rt; codes, best.codes.as_slice());
    assert!(rt; cost.at_most(best.cost) && best.cost.at_most(cost));
    Ok(count_lines(machine, line, cost))
}

// A line with pixels is closed, with the preview of its codes; one without is refused by number 5.
fn check_close<M: DisplayMachine, C: Cost>(
    rt: &(impl Abort + AllocGlobal),
    machine: &M,
    line: &[Wanted],
    answer: &Result<Answer<C>, Fault>,
) -> Result<usize, Fail> {
    match answer {
        Ok(
            Answer::Closed {
                codes,
                preview,
                cost,
            },
        ) => {
            let colours = shown(rt.alloc(), machine, codes)?;
            assert_eq!(rt; preview.as_slice(), colours.as_slice());
            check_closed(rt, machine, line, codes, *cost)
        }
        Err(fault) => {
            assert!(rt; line.is_empty());
            assert_eq!(rt; fault.number(), 5);
            Ok(0)
        }
        _ => Err(Fail::new("no answer of a close")),
    }
}

// What was met: pixels that were refused, and lines of which another costs as little.
#[derive(Clone, Copy, Default)]
pub struct Met {
    pub refused: usize,
    pub tied: usize,
}

impl Met {
    // What was met in both.
    fn and(self, other: Met) -> Met {
        Met {
            refused: self.refused.saturating_add(other.refused),
            tied: self.tied.saturating_add(other.tied),
        }
    }
}

// Makes a line of these pixels by the calls, and compares every answer.
pub fn check_line<M: DisplayMachine, C: Cost>(
    rt: &(impl Abort + AllocGlobal),
    machine: &M,
    cells: &mut [Cell<C>],
    wanted: &[Wanted],
) -> Result<Met, Fail> {
    let calls = calls_for(rt.alloc(), wanted, u16::try_from(wanted.len())?)?;
    let entries: Vec<Entry<C>> = run(rt.alloc(), machine, cells, &calls)?;
    assert_eq!(rt; entries.len(), calls.len());
    let line = taken(rt, machine, wanted, &entries)?;
    let Some(close) = entries.as_slice().last() else {
        return Err(Fail::new("no answer of a close"));
    };
    let equals = check_close(rt, machine, &line, &close.answer)?;
    Ok(Met {
        refused: wanted.len().saturating_sub(line.len()),
        tied: usize::from(equals > 1),
    })
}

// So many lines of 1 pixel to the widest, each on a machine of its own.
fn check_lines<M: ByChance, C: Cost>(
    rt: &(impl Abort + AllocGlobal),
    lines: u16,
    widest: u16,
    pinned: bool,
) -> Result<Met, Fail>
    requires { 0 < widest }
{
    let mut chance = Chance { seed: 1 };
    let states = usize::from(M::drawn(&mut chance).states());
    let mut cells = littered::<C>(rt.alloc(), (usize::from(widest) + 1) * states)?;
    let mut met = Met::default();
    // A number and no index: it gives the line its width.
    for number in 0..lines {
        let machine = M::drawn(&mut chance);
        let wanted = chance.pixels(rt.alloc(), 1 + number % widest, machine.codes(), pinned)?;
        met = met.and(check_line(rt, &machine, &mut cells, &wanted)?);
    }
    Ok(met)
}

// So many lines of free pixels, none of which is refused, and as many in which some are pinned. There are ties among both.
// Says how many pixels were refused.
pub fn check_machine<M: ByChance, C: Cost>(
    rt: &(impl Abort + AllocGlobal),
    lines: u16,
    widest: u16,
) -> Result<usize, Fail>
    requires { 0 < widest }
{
    let free = check_lines::<M, C>(rt, lines, widest, false)?;
    let pinned = check_lines::<M, C>(rt, lines, widest, true)?;
    assert_eq!(rt; free.refused, 0);
    assert!(rt; free.tied > 0 && pinned.tied > 0);
    Ok(pinned.refused)
}
