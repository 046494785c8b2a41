// Viterbi's recursion over the stages of a line: the cell, and what is proved of its columns.
#![tactic(auto)]

ghost use Rattle.std.specs.Prelude.{◌≡◌};
ghost use Rattle.viterbi.specs.Columns.{blank};
ghost use Rattle.viterbi.specs.Theorems.{ColumnsTheorem, LineTheorem};

use cost::Cost;

// What a column keeps of one state: the least cost of a way to it, that way's last step, and whether there is one.
// Fields lie as they are written, and a wide one after a narrow one leaves bytes unused, so the cost comes first.
#[derive(Clone, Copy, Debug, PartialEq, Eq)]
pub struct Cell<C> {
    pub cost: C,
    pub prev: u16,
    pub code: u8,
    // Beside the rest, since an Option around it would make a cell of summed errors 12 bytes: C is promised 8.
    pub reached: bool,
}

// The cell of a state that no way leads to.
pub fn unreached<C: Cost>() -> Cell<C>
    ensures { result ≡ blank C.kind }
{
    Cell {
        cost: C::zero(),
        prev: 0,
        code: 0,
        reached: false,
    }
}

// Columns, survivors and picks are what the words say. Of no use to a program: its contract is the theorem.
pub fn columns_stand<C>() -> u8
    ensures { ColumnsTheorem C }
{
    0
}

// Along a whole line no way is cheaper than the one picked. Of no use to a program: its contract is the theorem.
pub fn line_stands<C>() -> u8
    ensures { LineTheorem C }
{
    0
}
