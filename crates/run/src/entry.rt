// What is called, and what is answered.
use display::Target;
use lines::Fault;

// A call on a plate or on its open line. Close says how long the two buffers are that it is lent.
#[derive(Clone, Copy)]
pub enum Call {
    Start { width: u16 },
    Pixel { target: Target },
    Pin { target: Target, code: u8 },
    Back,
    Close { codes: usize, preview: usize },
    Abandon,
    Report,
}

// What a call answered that was not refused: a close its line, a report what the plate came to.
#[derive(Drop)]
pub enum Answer<C: Drop> {
    Taken,
    Closed {
        codes: Vec<u8>,
        preview: Vec<u16>,
        cost: C,
    },
    // Not by trellis's Report: these are the record's own words, which the promise takes apart.
    Reported {
        lines: u16,
        total: C,
    },
}

// A call and its answer, which is a fault where the call was refused.
#[derive(Drop)]
pub struct Entry<C: Drop> {
    pub call: Call,
    pub answer: Result<Answer<C>, Fault>,
}
