// The display and the cost kind that a header names.
use display::{Fill, HalfBrite, Ham};

#[derive(Clone, Copy, Debug, PartialEq, Eq)]
pub enum MachineKind {
    Ham,
    HalfBrite,
    Fill,
}

#[derive(Clone, Copy, Debug, PartialEq, Eq)]
pub enum CostKind {
    Summed,
    Worst,
    Pair,
}

// A display with its palette.
#[derive(Clone, Copy)]
pub enum AnyDisplay {
    Ham(Ham),
    HalfBrite(HalfBrite),
    Fill(Fill),
}
