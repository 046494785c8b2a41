// Extra-Half-Brite: 32 registers, and each of them again at half its brightness.
ghost use Rattle.std.specs.Prelude.{◌≡◌, ◌<◌};
ghost use Rattle.display.specs.Displays.{half_brite_meaning, half_of};
ghost use Rattle.std.proofs.Common.{rules};

use crate::colour::Levels;
use crate::machine::DisplayMachine;

#[derive(Clone, Copy)]
pub struct HalfBrite {
    pub registers: [u16; 32],
}

fn halved(colour: u16) -> u16
    requires { colour < 4096 }
    ensures { result ≡ half_of colour }
{
    let Levels { red, green, blue } = Levels::of(colour);
    Levels {
        red: red / 2,
        green: green / 2,
        blue: blue / 2,
    }
    .colour()
}

impl DisplayMachine for HalfBrite {
    ghost meaning = { half_brite_meaning };

    ghost lawful = { Prim.search rules };

    ghost few_states = { Prim.search rules };

    ghost colour_below = { Prim.search rules };

    fn states(&self) -> u16 {
        64
    }

    fn codes(&self) -> u8 {
        64
    }

    fn start(&self) -> u16 {
        0
    }

    fn step(&self, state: u16, code: u8) -> Option<u16> {
        (state < 64 && code < 64).then_some(u16::from(code))
    }

    fn shown(&self, state: u16) -> u16 {
        match state {
            0..=31 => self.registers[usize::from(state)] % 4096,
            32..=63 => halved(self.registers[usize::from(state - 32)] % 4096),
            _ => 0,
        }
    }

    fn holds(&self, _code: u8) -> bool {
        false
    }
}
