// The header and the palette of a plate file.
ghost use Rattle.std.specs.Prelude.{◌≡◌};
ghost use Rattle.records.specs.Cutting.{checked_header};
ghost use Rattle.records.specs.Headings.{heading};

use crate::cutting::cut;
use crate::display_kind::{AnyDisplay, CostKind, MachineKind};
use crate::fault::{FileFault, PlateFault};
use crate::letters::colour_count;
use crate::palette::{colours_are_right, display_of};
use crate::record::{Record, Stage};
use trellis::WIDEST;

// What stands before the lines: the display, the cost kind, how many colours the palette has, the width, and the byte at which the lines begin.
#[derive(Clone, Copy)]
pub struct Heading {
    pub display: AnyDisplay,
    pub cost: CostKind,
    pub colours: usize,
    pub width: u16,
    pub at: usize,
}

// Reads what stands before the lines of a file. `limit` is the most bytes that a file may have.
pub fn read_heading(input: &[u8], limit: usize) -> Result<Heading, FileFault>
    ensures { result ≡ heading limit input.now }
{
    if input.len() > limit {
        return Err(FileFault::TooLong);
    }
    let mut stage = Stage::Header;
    let Record::Header {
        machine,
        cost,
        width,
    } = cut(input, 0, &mut stage, 0, 0)?
    else {
        // At its first stage the reader takes a header alone.
        unreachable()
    };
    let (machine, cost) = check_header(machine, cost, width)?;
    let colours = colour_count(machine);
    let Record::Palette { colours: body } = cut(&input[8..], 8, &mut stage, colours, width)? else {
        // And a palette alone after it.
        unreachable()
    };
    if !colours_are_right(body) {
        return Err(PlateFault::OutOfRange { at: 8 }.into());
    }
    Ok(Heading {
        display: display_of(machine, body),
        cost,
        colours,
        width,
        at: 12 + body.len(),
    })
}

// The letters of the header, and the width: all three in range, or none is taken.
fn check_header(machine: u8, cost: u8, width: u16) -> Result<(MachineKind, CostKind), PlateFault>
    ensures { result ≡ checked_header machine cost width }
{
    match (
        MachineKind::try_from(char::from(machine)),
        CostKind::try_from(char::from(cost)),
    ) {
        (Ok(machine), Ok(cost)) if (1..=WIDEST).contains(&width) => Ok((machine, cost)),
        _ => Err(PlateFault::OutOfRange { at: 0 }),
    }
}
