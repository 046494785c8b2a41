// Cases by a rule that looks like chance and is always the same.
ghost use Rattle.std.specs.Prelude.{◌<◌};

use crate::encoder::Wanted;
use display::{DisplayMachine, Fill, HalfBrite, Ham, Target};
use run_tests::Fuse;
use std::alloc::{AllocError, Global};
use std::array;

// A linear congruence, of which the high half is given out.
#[derive(Drop)]
pub struct Chance {
    pub seed: u32,
}

// Few levels, so that many errors are equal.
const BYTES: [u8; 4] = [0, 112, 128, 255];

const COLOURS: [u16; 8] = [0x000, 0x700, 0x070, 0x770, 0xf00, 0x00f, 0x888, 0xfff];

impl Chance {
    pub fn below(&mut self, limit: u16) -> u16
        requires { 0 < limit }
        ensures { result < limit }
    {
        self.seed = self.seed.wrapping_mul(1664525).wrapping_add(1013904223);
        (self.seed / 65536) as u16 % limit
    }

    fn byte(&mut self) -> u8 {
        BYTES[usize::from(self.below(4))]
    }

    pub fn colour(&mut self) -> u16 {
        COLOURS[usize::from(self.below(8))]
    }

    // Every other pixel is pinned, if any is to be, and more often to a low code than to a high one.
    fn pin(&mut self, codes: u8, pinned: bool) -> Option<u8> {
        if pinned && codes > 0 && self.below(2) == 0 {
            let limit = 1 + self.below(u16::from(codes));
            Some(self.below(limit) as u8)
        } else {
            None
        }
    }

    fn pixel(&mut self, codes: u8, pinned: bool) -> Wanted {
        let target = Target {
            red: self.byte(),
            green: self.byte(),
            blue: self.byte(),
        };
        Wanted {
            target,
            pin: self.pin(codes, pinned),
        }
    }

    // So many pixels of a machine with so many codes.
    pub fn pixels(
        &mut self,
        heap: Global,
        width: u16,
        codes: u8,
        pinned: bool,
    ) -> Result<Vec<Wanted>, AllocError> {
        (0..width).map(|_| self.pixel(codes, pinned)).collect(heap)
    }

    // A palette.
    pub fn colours<const N: usize>(&mut self) -> [u16; N] {
        array::from_fn(|_| self.colour())
    }
}

// A machine with colours by chance.
pub trait ByChance: DisplayMachine + Copy {
    fn drawn(chance: &mut Chance) -> Self;
}

impl ByChance for Fuse {
    fn drawn(chance: &mut Chance) -> Fuse {
        Fuse {
            colours: chance.colours(),
        }
    }
}

impl ByChance for Fill {
    fn drawn(chance: &mut Chance) -> Fill {
        Fill {
            entries: chance.colours(),
        }
    }
}

impl ByChance for HalfBrite {
    fn drawn(chance: &mut Chance) -> HalfBrite {
        HalfBrite {
            registers: chance.colours(),
        }
    }
}

impl ByChance for Ham {
    fn drawn(chance: &mut Chance) -> Ham {
        Ham {
            registers: chance.colours(),
        }
    }
}
