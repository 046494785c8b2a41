// Plate files: their lines, drawn one after another, and the text that is printed.
#![tactic(auto)]

mod drawing;
mod error;
mod opening;
mod pieces;
mod reader;
mod text;

pub use drawing::DrawnLine;
pub use error::FileError;
pub use opening::{Opened, open_file};
pub use pieces::{Piece, next_text};
pub use reader::{Lines, Next};
pub use records::{
    AnyDisplay, CostKind, FileFault, Heading, LineFault, MachineKind, Mark, PlateFault, Record,
    Stage, read_heading,
};
pub use text::{FaultLine, fault_text, line_text, total_text};
