// A small display machine. A fuse is dark, then glows, then is burnt: code 0 holds it as it is, code 1 takes it on. Once it is
// burnt no code leads anywhere.
ghost use Rattle.std.specs.Prelude.{◌≡◌};
ghost use Rattle.run_tests.specs.Fuse.{fuse_meaning};
ghost use Rattle.std.proofs.Common.{rules};

use display::DisplayMachine;

#[derive(Clone, Copy)]
pub struct Fuse {
    pub colours: [u16; 3],
}

impl DisplayMachine for Fuse {
    ghost meaning = { fuse_meaning };

    ghost lawful = { Prim.search rules };

    ghost few_states = { Prim.search rules };

    ghost colour_below = { Prim.search rules };

    fn states(&self) -> u16 {
        3
    }

    fn codes(&self) -> u8 {
        2
    }

    fn start(&self) -> u16 {
        0
    }

    fn step(&self, state: u16, code: u8) -> Option<u16> {
        match (state, code) {
            (0..=1, 0) => Some(state),
            (0..=1, 1) => Some(state + 1),
            _ => None,
        }
    }

    fn shown(&self, state: u16) -> u16 {
        self.colours
            .get(usize::from(state))
            .map_or(0, |colour| colour % 4096)
    }

    fn holds(&self, code: u8) -> bool {
        code == 0
    }
}
