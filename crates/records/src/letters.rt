// The letters of a header.
ghost use Rattle.std.specs.Prelude.{◌≡◌};
ghost use Rattle.std.specs.Option.{ok_or};
ghost use Rattle.records.specs.Letters.{colours_of, cost_of_letter, machine_of};

use crate::display_kind::{CostKind, MachineKind};

// A letter that stands for no display, or for no cost kind.
#[derive(Clone, Copy, Debug, PartialEq, Eq)]
pub struct UnknownLetter(pub char);

impl TryFrom<char> for MachineKind {
    type Error = UnknownLetter;

    ghost try_from_gives = { λ letter r. r ≡ ok_or (machine_of letter) (record { 0 = letter }) };

    fn try_from(letter: char) -> Result<MachineKind, UnknownLetter> {
        match letter {
            'H' => Ok(MachineKind::Ham),
            'E' => Ok(MachineKind::HalfBrite),
            'F' => Ok(MachineKind::Fill),
            _ => Err(UnknownLetter(letter)),
        }
    }
}

impl TryFrom<char> for CostKind {
    type Error = UnknownLetter;

    ghost try_from_gives = { λ letter r. r ≡ ok_or (cost_of_letter letter) (record { 0 = letter }) };

    fn try_from(letter: char) -> Result<CostKind, UnknownLetter> {
        match letter {
            'S' => Ok(CostKind::Summed),
            'W' => Ok(CostKind::Worst),
            'P' => Ok(CostKind::Pair),
            _ => Err(UnknownLetter(letter)),
        }
    }
}

// How many colours the palette of a display has.
pub(crate) fn colour_count(kind: MachineKind) -> usize
    ensures { result ≡ colours_of kind }
{
    match kind {
        MachineKind::Ham | MachineKind::Fill => 16,
        MachineKind::HalfBrite => 32,
    }
}
