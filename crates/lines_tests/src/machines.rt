// Machines with every colour black, for tests in which the palette does not matter.
use display::{Fill, Ham};

pub const HAM: Ham = Ham { registers: [0; 16] };

pub const FILL: Fill = Fill { entries: [0; 16] };
