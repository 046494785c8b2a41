// A palette: colours in two bytes, the low byte first.
ghost use Rattle.std.specs.Prelude.{◌≡◌, ◌*◌, length};
ghost use Rattle.records.specs.Letters.{colours_of, display_of, words};
ghost use Rattle.records.specs.Records.{palette_right};

use crate::display_kind::{AnyDisplay, MachineKind};
use display::{Fill, HalfBrite, Ham};
use std::array;

// Each colour has at most twelve bits. A byte that is left over is no colour.
pub(crate) fn colours_are_right(body: &[u8]) -> bool
    ensures { result ≡ palette_right body.now }
{
    let (colours, _) = body.as_chunks::<2>();
    colours
        .iter()
        .all(|colour| u16::from_le_bytes(*colour) <= 4095)
}

fn palette_words<const N: usize>(body: &[u8]) -> [u16; N]
    requires { length body.now ≡ 2 * N }
    ensures { result ≡ words body.now }
{
    let (colours, _) = body.as_chunks::<2>();
    array::from_fn(|i| u16::from_le_bytes(colours[i]))
}

pub(crate) fn display_of(kind: MachineKind, body: &[u8]) -> AnyDisplay
    requires { length body.now ≡ 2 * colours_of kind }
    ensures { result ≡ display_of kind (words body.now) }
{
    match kind {
        MachineKind::Ham => AnyDisplay::Ham(Ham {
            registers: palette_words(body),
        }),
        MachineKind::HalfBrite => AnyDisplay::HalfBrite(HalfBrite {
            registers: palette_words(body),
        }),
        MachineKind::Fill => AnyDisplay::Fill(Fill {
            entries: palette_words(body),
        }),
    }
}
