// One code of a line.
ghost use Rattle.std.specs.Prelude.{◌≡◌};
ghost use Rattle.lines.specs.Lines.{after_code, price_at};

use cost::Cost;
use display::{DisplayMachine, Levels};

// The state after a code, or the same where the code has no next state: the walks below come after the check for that.
pub(crate) fn next_state<M: DisplayMachine>(machine: &M, state: u16, code: u8) -> u16
    ensures { result ≡ after_code (M.meaning machine.now) state code }
{
    machine.step(state, code).unwrap_or(state)
}

// The price of a pixel whose code led to the state.
pub fn pixel_price<M: DisplayMachine, C: Cost>(
    machine: &M,
    wanted: Levels,
    code: u8,
    state: u16,
) -> C
    ensures { result ≡ price_at (M.meaning machine.now) C.kind wanted code state }
{
    C::price(wanted.error(machine.shown(state)), machine.holds(code))
}
