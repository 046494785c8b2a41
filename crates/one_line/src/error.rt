// Why a line is not drawn.
ghost use Rattle.std.specs.Prelude.{◌≡◌};
ghost use Rattle.one_line.specs.declared.error.DrawError.TheVariants.{NoMemory, Refused};

use lines::Fault;
use std::alloc::AllocError;

// A call on the plate was refused, or there was no memory for what the line is drawn with.
#[derive(Clone, Copy, Debug, PartialEq, Eq)]
pub enum DrawError {
    Refused(Fault),
    NoMemory(AllocError),
}

impl From<Fault> for DrawError {
    ghost from_gives = { λ fault error. error ≡ Refused fault };

    fn from(fault: Fault) -> DrawError {
        DrawError::Refused(fault)
    }
}

impl From<AllocError> for DrawError {
    ghost from_gives = { λ lack error. error ≡ NoMemory lack };

    fn from(lack: AllocError) -> DrawError {
        DrawError::NoMemory(lack)
    }
}
