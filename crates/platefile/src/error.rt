// Why a plate file cannot be read on.
ghost use Rattle.std.specs.Prelude.{◌≡◌};
ghost use Rattle.platefile.specs.declared.error.FileError.TheVariants.{Fault, NoMemory};

use records::FileFault;
use std::alloc::AllocError;

// The fault that ends the file, or no memory.
// Not one generic type with one_line's DrawError: its From would have to stand in a third crate, away from both faults.
#[derive(Clone, Copy, Debug, PartialEq, Eq)]
pub enum FileError {
    Fault(FileFault),
    NoMemory(AllocError),
}

impl From<FileFault> for FileError {
    ghost from_gives = { λ fault error. error ≡ Fault fault };

    fn from(fault: FileFault) -> FileError {
        FileError::Fault(fault)
    }
}

impl From<AllocError> for FileError {
    ghost from_gives = { λ lack error. error ≡ NoMemory lack };

    fn from(lack: AllocError) -> FileError {
        FileError::NoMemory(lack)
    }
}
