// The Apple IIgs fill mode: code 0 repeats the colour on its left.
ghost use Rattle.std.specs.Prelude.{◌≡◌};
ghost use Rattle.display.specs.Displays.{fill_meaning};
ghost use Rattle.std.proofs.Common.{rules};

use crate::machine::DisplayMachine;

#[derive(Clone, Copy)]
pub struct Fill {
    pub entries: [u16; 16],
}

impl DisplayMachine for Fill {
    ghost meaning = { fill_meaning };

    ghost lawful = { Prim.search rules };

    ghost few_states = { Prim.search rules };

    ghost colour_below = { Prim.search rules };

    fn states(&self) -> u16 {
        16
    }

    fn codes(&self) -> u8 {
        16
    }

    fn start(&self) -> u16 {
        0
    }

    fn step(&self, state: u16, code: u8) -> Option<u16> {
        match (state, code) {
            (0, 0) => None,
            (0..=15, 0) => Some(state),
            (0..=15, 1..=15) => Some(u16::from(code)),
            _ => None,
        }
    }

    fn shown(&self, state: u16) -> u16 {
        self.entries
            .get(usize::from(state))
            .map_or(0, |entry| *entry % 4096)
    }

    fn holds(&self, code: u8) -> bool {
        code == 0
    }
}
