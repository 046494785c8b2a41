// The nearest colour, pixel by pixel: what looks best at each pixel, whatever it does to the next.
ghost use Rattle.std.specs.Prelude.{◌≡◌, IfOk};
ghost use Rattle.lines.specs.Lines.{targets_of};
ghost use Rattle.editor_line.specs.Nearest.{NearestBelow, NearestLine};

use display::{DisplayMachine, Levels, Target};
use std::alloc::{AllocError, Global};

// A code, the state that it leads to, and the error of that state's colour.
#[derive(Clone, Copy)]
pub struct Choice {
    pub code: u8,
    pub state: u16,
    pub error: u32,
}

// The first code that leads to a nearest colour, or none where no code has a next state.
pub fn nearest<M: DisplayMachine>(machine: &M, state: u16, wanted: Levels) -> Option<Choice>
    ensures { NearestBelow (M.meaning machine.now) state wanted (M.meaning machine.now).codes result }
{
    (0..machine.codes())
        .filter_map(|code| {
            let next = machine.step(state, code)?;
            Some(Choice {
                code,
                state: next,
                error: wanted.error(machine.shown(next)),
            })
        })
        .min_by_key(|choice| choice.error)
}

// The code line that takes a nearest colour at each pixel. It ends where no code has a next state.
pub fn nearest_line<M: DisplayMachine>(
    heap: Global,
    machine: &M,
    targets: &[u8],
) -> Result<Vec<u8>, AllocError>
    ensures { IfOk result (λ codes. NearestLine (M.meaning machine.now) (M.meaning machine.now).start (targets_of targets.now) codes.items) }
{
    let (whole, _) = targets.as_chunks::<3>();
    let mut codes = Vec::new(heap);
    let mut state = machine.start();
    for bytes in whole {
        let wanted = Target::from(*bytes).levels();
        let Some(choice) = nearest(machine, state, wanted) else {
            break;
        };
        codes.push(choice.code)?;
        state = choice.state;
    }
    Ok(codes)
}
