// The plate at rest and the open line. Neither can be copied or let go, so a line that was started is closed or abandoned.

// How many lines are closed, and zero joined with their costs in order.
pub struct Plate<C> {
    pub(crate) lines: u16,
    pub(crate) total: C,
}

// A line on its plate: how wide it is to be, and how many pixels it still lacks.
pub struct OpenLine<C> {
    pub(crate) plate: Plate<C>,
    pub(crate) width: u16,
    pub(crate) left: u16,
}

// What a plate came to.
#[derive(Clone, Copy)]
pub struct Report<C> {
    pub lines: u16,
    pub total: C,
}

// Keeps the two from becoming Drop or Copy: were one of them, two of these impls would fit it, which is refused.
trait Kept {}

impl<T: Drop> Kept for T {}

impl<C> Kept for Plate<C> {}

impl<C> Kept for OpenLine<C> {}
