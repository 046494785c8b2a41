// One call of a run. The machine and the cells stay two parameters, for the reason at the head of trellis/src/calls.rt.
ghost use Rattle.std.specs.Prelude.{◌≡◌};
ghost use Rattle.run.specs.Agreement.{StepFrom, plain_step};
ghost use Rattle.run.specs.declared.entry.Call.TheVariants.{Start};
ghost use Rattle.run.specs.declared.state.State.TheVariants.{Drawing, Resting};

use crate::closing::close_line;
use crate::entry::{Answer, Call};
use crate::state::{State, Step, Unanswered};
use cost::Cost;
use display::DisplayMachine;
use lines::Fault;
use std::alloc::Global;
use trellis::{OpenLine, Plate};
use viterbi::Cell;

// Makes one call, if it finds the plate at rest or the open line that takes it.
pub(crate) fn make_call<M: DisplayMachine, C: Cost>(
    heap: Global,
    machine: &M,
    cells: &mut [Cell<C>],
    state: State<C>,
    call: Call,
) -> Step<C>
    ensures { StepFrom (M.meaning machine.now) C.kind state cells.old call cells.new result }
{
    match state {
        State::Resting(plate) => call_plate(machine, cells, plate, call),
        State::Drawing(line) => call_line(heap, machine, cells, line, call),
        State::Ended => Step {
            state: State::Ended,
            answer: Err(Unanswered::NotFound),
        },
    }
}

fn call_plate<M: DisplayMachine, C: Cost>(
    machine: &M,
    cells: &mut [Cell<C>],
    plate: Plate<C>,
    call: Call,
) -> Step<C>
    ensures { StepFrom (M.meaning machine.now) C.kind (Resting plate) cells.old call cells.new result }
{
    match call {
        Call::Start { width } => start_line(machine, cells, plate, width),
        Call::Report => {
            let report = plate.report();
            Step {
                state: State::Ended,
                answer: Ok(Ok(Answer::Reported {
                    lines: report.lines,
                    total: report.total,
                })),
            }
        }
        _ => Step {
            state: State::Resting(plate),
            answer: Err(Unanswered::NotFound),
        },
    }
}

fn start_line<M: DisplayMachine, C: Cost>(
    machine: &M,
    cells: &mut [Cell<C>],
    plate: Plate<C>,
    width: u16,
) -> Step<C>
    ensures { StepFrom (M.meaning machine.now) C.kind (Resting plate) cells.old (Start width) cells.new result }
{
    match plate.start(machine, cells, width) {
        Ok(line) => Step {
            state: State::Drawing(line),
            answer: Ok(Ok(Answer::Taken)),
        },
        Err((plate, fault)) => Step {
            state: State::Resting(plate),
            answer: Ok(Err(fault)),
        },
    }
}

fn call_line<M: DisplayMachine, C: Cost>(
    heap: Global,
    machine: &M,
    cells: &mut [Cell<C>],
    mut line: OpenLine<C>,
    call: Call,
) -> Step<C>
    ensures { StepFrom (M.meaning machine.now) C.kind (Drawing line) cells.old call cells.new result }
{
    match call {
        Call::Pixel { target } => {
            let done = line.pixel(machine, cells, target);
            plain_step(line, done)
        }
        Call::Pin { target, code } => {
            let done = line.pin(machine, cells, target, code);
            plain_step(line, done)
        }
        Call::Back => {
            let done = line.back();
            plain_step(line, done)
        }
        Call::Close { codes, preview } => close_line(heap, machine, cells, line, codes, preview),
        Call::Abandon => Step {
            state: State::Resting(line.abandon()),
            answer: Ok(Ok(Answer::Taken)),
        },
        _ => Step {
            state: State::Drawing(line),
            answer: Err(Unanswered::NotFound),
        },
    }
}

// The open line after a call that gives nothing but its refusal.
fn plain_step<C: Cost>(line: OpenLine<C>, done: Result<(), Fault>) -> Step<C>
    ensures { result ≡ plain_step line done }
{
    Step {
        state: State::Drawing(line),
        answer: Ok(done.map(|()| Answer::Taken)),
    }
}
