// Cells with litter in them.
ghost use Rattle.std.specs.Prelude.{◌≡◌, IfOk, replicate};
ghost use Rattle.run_tests.specs.Litter.{litter};

use cost::Cost;
use std::alloc::{AllocError, Global};
use viterbi::Cell;

// Cells as an earlier use could have left them: each says that it is reached, and at no cost.
pub fn littered<C: Cost>(heap: Global, count: usize) -> Result<Vec<Cell<C>>, AllocError>
    ensures { IfOk result (λ cells. cells.items ≡ replicate count (litter C.kind)) }
{
    let cell = Cell {
        cost: C::zero(),
        prev: 1,
        code: 1,
        reached: true,
    };
    // Not by vec!, which clones: nothing says that a clone of a cost is that cost.
    let mut cells = Vec::new(heap);
    cells.resize_with(count, move || cell)?;
    Ok(cells)
}
