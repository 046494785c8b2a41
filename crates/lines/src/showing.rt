// Show: the preview of a code line.
ghost use Rattle.std.specs.Prelude.{◌≡◌, ◌≤◌, length};
ghost use Rattle.lines.specs.Lines.{preview_of};
ghost use Rattle.lines.specs.Checks.{answer, show_check, shown_buffer, with_front};

use crate::check::{check_codes, check_steps};
use crate::fault::Fault;
use crate::walk::next_state;
use display::DisplayMachine;

// Writes the colours that a code line shows at the front of a buffer. A refusal writes nothing.
pub fn show<M: DisplayMachine>(machine: &M, codes: &[u8], preview: &mut [u16]) -> Result<(), Fault>
    ensures value { result ≡ answer (show_check (M.meaning machine.now) codes.now preview.old) tt }
    ensures after { preview.new ≡ shown_buffer (M.meaning machine.now) codes.now preview.old }
{
    check_codes(machine, codes)?;
    if preview.len() < codes.len() {
        return Err(Fault::ShortBuffer { pixel: codes.len() });
    }
    check_steps(machine, codes)?;
    write_preview(machine, codes, preview);
    Ok(())
}

fn write_preview<M: DisplayMachine>(machine: &M, codes: &[u8], preview: &mut [u16])
    requires { length codes.now ≤ length preview.old }
    ensures { preview.new ≡ with_front (preview_of (M.meaning machine.now) codes.now) preview.old }
{
    let mut state = machine.start();
    // By index: of what a slice holds after `iter_mut().zip(..)` the library says nothing.
    for (pixel, code) in codes.iter().enumerate() {
        state = next_state(machine, state, *code);
        preview[pixel] = machine.shown(state);
    }
}
