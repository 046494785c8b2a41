// What is printed of a plate file.
ghost use Rattle.std.specs.Prelude.{◌≡◌, List, ℕ, IfOk, Some, string_bytes};
ghost use Rattle.platefile.specs.Texts.{fault_bytes, line_bytes, total_bytes};

use cost::Cost;
use lines::{Codes, Preview};
use records::FileFault;
use std::alloc::{AllocError, Global};
use std::fmt::{self, Display};

// A line that was drawn: its number, its cost and its codes, and on the next line its preview.
// Parts of a line and no DrawnLine, which would ask a caller for vectors where slices do.
pub fn line_text<C: Cost + Display>(
    heap: Global,
    number: u16,
    cost: C,
    codes: &[u8],
    preview: &[u16],
) -> Result<String, AllocError>
    ensures { IfOk result (λ text. (shown_cost : List ℕ) → C.Display.output cost ≡ Some shown_cost → string_bytes text ≡ line_bytes number shown_cost codes.now preview.now) }
{
    let codes = Codes(codes);
    let preview = Preview(preview);
    format!(in heap; "line {number} cost {cost} codes{codes}\npreview{preview}\n")
}

// How many lines were drawn, and what they cost together.
pub fn total_text<C: Cost + Display>(
    heap: Global,
    lines: u16,
    total: C,
) -> Result<String, AllocError>
    ensures { IfOk result (λ text. (shown_total : List ℕ) → C.Display.output total ≡ Some shown_total → string_bytes text ≡ total_bytes lines shown_total) }
{
    format!(in heap; "lines {lines} total {total}\n")
}

// The fault that ends a file, as the line that is printed.
#[derive(Clone, Copy, Debug, PartialEq, Eq)]
pub struct FaultLine(pub FileFault);

impl Display for FaultLine {
    ghost output = { λ line. Some (fault_bytes line.0) };

    fn fmt<W: fmt::Write>(&self, f: &mut fmt::Formatter<W>) -> fmt::Result {
        write!(f, "{}\n", self.0)
    }
}

// The same line as a text.
pub fn fault_text(heap: Global, fault: FileFault) -> Result<String, AllocError>
    ensures { IfOk result (λ text. string_bytes text ≡ fault_bytes fault) }
{
    format!(in heap; "{}", FaultLine(fault))
}
