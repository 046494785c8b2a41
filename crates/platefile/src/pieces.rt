// What is printed of a plate file, piece by piece, so that a line can be printed as soon as it is closed.
ghost use Rattle.std.specs.Prelude.{◌≡◌, ℕ, List, Some, IfOk};
ghost use Rattle.platefile.specs.Pieces.{PieceRight, PieceShortens};

use crate::error::FileError;
use crate::reader::{Lines, Next};
use crate::text::{fault_text, line_text, total_text};
use cost::Cost;
use std::alloc::{AllocError, Global};
use std::fmt::Display;

// The text of a line and what is left after it; or the text that ends the output, the total or the fault.
pub struct Piece<'a, C> {
    pub text: String,
    pub left: Option<Lines<'a, C>>,
}

// The next piece of what is printed.
pub fn next_text<'a, C: Cost + Display>(
    heap: Global,
    lines: Lines<'a, C>,
) -> Result<Piece<'a, C>, AllocError>
    ensures text { (words : C → List ℕ) → ((cost : C) → C.Display.output cost ≡ Some (words cost)) → IfOk result (PieceRight C.kind words lines.entry) }
    ensures shortens { IfOk result (PieceShortens lines.entry) }
{
    match lines.next(heap) {
        Ok(Next::Line { line, left }) => {
            match line_text(heap, line.number, line.cost, &line.codes, &line.preview) {
                Ok(text) => Ok(Piece {
                    text,
                    left: Some(left),
                }),
                Err(lack) => {
                    left.abandon();
                    Err(lack)
                }
            }
        }
        Ok(Next::Total(report)) => Ok(Piece {
            text: total_text(heap, report.lines, report.total)?,
            left: None,
        }),
        Err(FileError::Fault(fault)) => Ok(Piece {
            text: fault_text(heap, fault)?,
            left: None,
        }),
        Err(FileError::NoMemory(lack)) => Err(lack),
    }
}
