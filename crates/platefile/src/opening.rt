// Opens a plate file: reads what stands before its lines, and makes the cells.
ghost use Rattle.std.specs.Prelude.{◌≡◌, Err, IfOk, IsOk};
ghost use Rattle.display.specs.Machine.{Lawful};
ghost use Rattle.records.specs.Headings.{heading};
ghost use Rattle.records.specs.Letters.{meaning_of};
ghost use Rattle.platefile.specs.Opening.{LinesRight, OpenedRight};
ghost use Rattle.platefile.specs.declared.error.FileError.TheVariants.{NoMemory};

use crate::error::FileError;
use crate::reader::Lines;
use cost::{Cost, Pair, Summed, Worst};
use records::{CostKind, Heading, read_heading};
use std::alloc::{AllocError, Global};
use trellis::Plate;
use viterbi::unreached;

// The lines of a file, by the cost kind that its header names.
pub enum Opened<'a> {
    Summed(Lines<'a, Summed>),
    Worst(Lines<'a, Worst>),
    Pair(Lines<'a, Pair>),
}

// The lines of a file under this heading, on a new plate.
fn lines_of<'a, C: Cost>(
    heap: Global,
    input: &'a [u8],
    heading: Heading,
    cells: usize,
) -> Result<Lines<'a, C>, AllocError>
    ensures { IfOk result (λ lines. LinesRight C.kind heading input.now cells lines) }
{
    let blank = unreached();
    Ok(Lines {
        input,
        at: heading.at,
        heading,
        cells: vec![in heap; blank; cells]?,
        plate: Plate::new(),
    })
}

// Opens a file of at most `limit` bytes, with this many cells.
pub fn open_file<'a>(
    heap: Global,
    input: &'a [u8],
    limit: usize,
    cells: usize,
) -> Result<Opened<'a>, FileError>
    ensures opened { OpenedRight limit input.now cells result }

    // Memory can lack only for the cells of a file whose heading is right.
    ensures memory { (lack : AllocError) → result ≡ Err (NoMemory lack) → IsOk (heading limit input.now) }
{
    let heading = read_heading(input, limit)?;
    Ok(match heading.cost {
        CostKind::Summed => Opened::Summed(lines_of(heap, input, heading, cells)?),
        CostKind::Worst => Opened::Worst(lines_of(heap, input, heading, cells)?),
        CostKind::Pair => Opened::Pair(lines_of(heap, input, heading, cells)?),
    })
}
