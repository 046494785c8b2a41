// Judge: the cost of a code line by its targets.
ghost use Rattle.std.specs.Prelude.{◌≡◌, map};
ghost use Rattle.display.specs.Colours.{target_by};
ghost use Rattle.lines.specs.Lines.{cost_of};
ghost use Rattle.lines.specs.Checks.{judged};

use crate::check::{check_codes, check_steps};
use crate::fault::Fault;
use crate::walk::{next_state, pixel_price};
use cost::Cost;
use display::{DisplayMachine, Target};

// The cost of a code line, by three target bytes for each code.
pub fn judge<M: DisplayMachine, C: Cost>(
    machine: &M,
    codes: &[u8],
    targets: &[u8],
) -> Result<C, Fault>
    ensures { result ≡ judged (M.meaning machine.now) C.kind codes.now targets.now }
{
    let (targets, rest) = targets.as_chunks::<3>();
    if !rest.is_empty() || targets.len() != codes.len() {
        return Err(Fault::TargetBytes { pixel: codes.len() });
    }
    check_codes(machine, codes)?;
    check_steps(machine, codes)?;
    Ok(line_cost(machine, codes, targets))
}

fn line_cost<M: DisplayMachine, C: Cost>(machine: &M, codes: &[u8], targets: &[[u8; 3]]) -> C
    ensures { result ≡ cost_of (M.meaning machine.now) C.kind codes.now (map target_by targets.now) }
{
    let mut state = machine.start();
    let mut sum = C::zero();
    for (code, bytes) in codes.iter().zip(targets) {
        let target = Target::from(*bytes);
        state = next_state(machine, state, *code);
        sum = sum.join(pixel_price(machine, target.levels(), *code, state));
    }
    sum
}
