// Hold and modify, six bits to a pixel.
ghost use Rattle.std.specs.Prelude.{◌≡◌};
ghost use Rattle.display.specs.Displays.{ham_meaning};
ghost use Rattle.std.proofs.Common.{rules};

use crate::colour::Levels;
use crate::machine::DisplayMachine;

#[derive(Clone, Copy)]
pub struct Ham {
    pub registers: [u16; 16],
}

impl DisplayMachine for Ham {
    ghost meaning = { ham_meaning };

    ghost lawful = { Prim.search rules };

    ghost few_states = { Prim.search rules };

    ghost colour_below = { Prim.search rules };

    fn states(&self) -> u16 {
        4096
    }

    fn codes(&self) -> u8 {
        64
    }

    fn start(&self) -> u16 {
        self.registers[0] % 4096
    }

    fn step(&self, state: u16, code: u8) -> Option<u16> {
        if state >= 4096 {
            return None;
        }
        let data = code % 16;
        let old = Levels::of(state);
        match code / 16 {
            0 => Some(self.registers[usize::from(data)] % 4096),
            1 => Some(Levels { blue: data, ..old }.colour()),
            2 => Some(Levels { red: data, ..old }.colour()),
            3 => Some(Levels { green: data, ..old }.colour()),
            _ => None,
        }
    }

    fn shown(&self, state: u16) -> u16 {
        if state < 4096 { state } else { 0 }
    }

    fn holds(&self, code: u8) -> bool {
        (16..64).contains(&code)
    }
}
