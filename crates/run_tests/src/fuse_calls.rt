// The fuse and the calls that its tests make.
use crate::fuse::Fuse;
use crate::misses::Misses;
use crate::told::told;
use crate::wanted::RED_TARGET;
use display::Target;
use run::Call;
use std::alloc::Global;
use std::io;

pub const FUSE: Fuse = Fuse {
    colours: [0x000, 0x700, 0xf00],
};

// Column 0 and three more.
pub const CELLS: usize = 12;

// The colours that the fuse shows while it is dark, while it glows, and when it is burnt.
pub const DARK_TARGET: Target = Target {
    red: 0,
    green: 0,
    blue: 0,
};

pub const GLOW_TARGET: Target = Target {
    red: 112,
    green: 0,
    blue: 0,
};

pub const BURNT_TARGET: Target = RED_TARGET;

// Pixels at which they are wanted.
pub const DARK: Call = Call::Pixel {
    target: DARK_TARGET,
};

pub const GLOW: Call = Call::Pixel {
    target: GLOW_TARGET,
};

pub const BURNT: Call = Call::Pixel {
    target: BURNT_TARGET,
};

// Dark is wanted at a pixel that may have this code alone.
pub fn dark_by(code: u8) -> Call {
    Call::Pin {
        target: DARK_TARGET,
        code,
    }
}

// What the calls answer, with the fuse and misses.
pub fn fuse_told(heap: Global, cells: usize, calls: &[Call]) -> io::Result<String> {
    told::<Fuse, Misses>(heap, &FUSE, cells, calls)
}
