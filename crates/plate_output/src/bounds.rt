// What a program can take.
use trellis::WIDEST;

#[derive(Clone, Copy)]
pub struct Bounds {
    // The most bytes that a file may have.
    pub limit: usize,
    // The cells that a line's columns may take together.
    pub cells: usize,
}

// A small machine: lines of Extra-Half-Brite up to 40 pixels, of fill mode up to 163.
pub const SMALL: Bounds = Bounds {
    limit: 16384,
    cells: 2624,
};

// Any plate: the start and the pixels of the widest line, each with a cell for every colour.
// By `as`: no function of a trait can be called in a constant.
pub const WHOLE: Bounds = Bounds {
    limit: 4194304,
    cells: (WIDEST as usize + 1) * 4096,
};
