// A HAM line by the calls on a plate, for a program in C to time.
#![tactic(auto)]

ghost use Rattle.std.specs.Prelude.{◌≡◌, true};
ghost use Rattle.cost.specs.Kinds.{summed};
ghost use Rattle.cost.specs.declared.summed.Summed.{Summed};
ghost use Rattle.display.specs.Displays.{ham_meaning};
ghost use Rattle.one_line.specs.Lines.{BestFront};
ghost use Rattle.one_line.specs.declared.Figures.{Figures};

use cost::Summed;
use display::Ham;
use one_line::{draw_line, line_cells};
use std::alloc::Global;
use trellis::WIDEST;
use viterbi::Cell;

// The sixteen colour registers, as C hands them over.
#[repr(C)]
#[derive(Clone, Copy)]
pub struct Registers {
    pub colours: [u16; 16],
}

// How many bytes a cell of a line of summed errors takes.
#[unsafe(no_mangle)]
pub extern "C" fn cell_bytes() -> usize
    ensures { result ≡ 8 }
{
    size_of::<Cell<Summed>>()
}

// Writes the codes, the preview and the cost of the cheapest HAM line by summed errors, three target bytes a pixel. False where a call is refused or there is no memory for the cells.
// A bool and a place for the cost, since C calls it: a Result has no form there.
#[unsafe(no_mangle)]
pub extern "C" fn ham_line(
    heap: Global,
    registers: &Registers,
    targets: &[u8],
    codes: &mut [u8],
    preview: &mut [u16],
    cost: &mut u32,
) -> bool
    ensures { result ≡ true → (figures : Figures Summed) × (figures.cost.error ≡ cost.new) × BestFront (ham_meaning (record { registers = registers.now.colours })) summed targets.now codes.new preview.new figures }
{
    // Wider lines start refuses too.
    if targets.len() > 3 * usize::from(WIDEST) {
        return false;
    }
    let ham = Ham {
        registers: registers.colours,
    };
    let Ok(mut cells) = line_cells::<_, Summed>(heap, &ham, (targets.len() / 3) as u16) else {
        return false;
    };
    let Ok(figures) = draw_line(&ham, &mut cells, targets, codes, preview) else {
        return false;
    };
    *cost = figures.cost.error;
    true
}
