// A machine and calls that the tests of several machines share.
use display::{Ham, Target};
use run::Call;

// All registers 000.
pub const HAM: Ham = Ham { registers: [0; 16] };

// Column 0 of HAM and two more.
pub const HAM_CELLS: usize = 3 * 4096;

pub const RED_TARGET: Target = Target {
    red: 255,
    green: 0,
    blue: 0,
};

pub const OLIVE: Call = Call::Pixel {
    target: Target {
        red: 136,
        green: 119,
        blue: 0,
    },
};

pub const TEAL: Call = Call::Pixel {
    target: Target {
        red: 0,
        green: 119,
        blue: 119,
    },
};

pub const CLOSE: Call = Call::Close {
    codes: 3,
    preview: 3,
};
