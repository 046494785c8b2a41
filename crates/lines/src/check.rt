// The checks on a code line.
ghost use Rattle.std.specs.Prelude.{◌≡◌, ℕ, List};
ghost use Rattle.display.specs.Machine.{Meaning};
ghost use Rattle.lines.specs.Checks.{answer, no_step, unknown_code};
ghost use Rattle.lines.specs.Theorems.{ChecksTheorem};

use crate::fault::Fault;
use display::DisplayMachine;

pub(crate) fn check_codes<M: DisplayMachine>(machine: &M, codes: &[u8]) -> Result<(), Fault>
    ensures { result ≡ answer (unknown_code (M.meaning machine.now) codes.now) tt }
{
    let count = machine.codes();
    match codes.iter().position(|code| *code >= count) {
        Some(pixel) => Err(Fault::UnknownCode { pixel }),
        None => Ok(()),
    }
}

pub(crate) fn check_steps<M: DisplayMachine>(machine: &M, codes: &[u8]) -> Result<(), Fault>
    ensures { result ≡ answer (no_step (M.meaning machine.now) codes.now) tt }
{
    let mut state = machine.start();
    for (pixel, code) in codes.iter().enumerate() {
        state = machine.step(state, *code).ok_or(Fault::NoStep { pixel })?;
    }
    Ok(())
}

// The checks say what their words say. Of no use to a program: its contract is the theorem.
pub fn checks_stand() -> u8
    ensures { (m : Meaning) (codes : List ℕ) → ChecksTheorem m codes }
{
    0
}
