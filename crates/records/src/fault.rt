// The faults of the three layers. `at` is the byte at which the record begins, or must begin.
ghost use Rattle.std.specs.Prelude.{◌≡◌, Some};
ghost use Rattle.records.specs.Faults.{file_layer, file_number, file_place, plate_layer, plate_number, plate_place};
ghost use Rattle.records.specs.Texts.{fault_text, refused_line};
ghost use Rattle.records.specs.declared.fault.FileFault.TheVariants.{Plate};
ghost use Rattle.records.specs.declared.fault.PlateFault.TheVariants.{Trellis};

use lines::{Fault, Layer};
use std::fmt;

// A call on the plate was refused, in the line of this number.
#[derive(Clone, Copy, Debug, PartialEq, Eq)]
pub struct LineFault {
    pub fault: Fault,
    pub line: u16,
    pub at: usize,
}

#[derive(Clone, Copy, Debug, PartialEq, Eq)]
pub enum PlateFault {
    Misplaced { at: usize },
    OutOfRange { at: usize },
    Trellis { refused: LineFault },
}

#[derive(Clone, Copy, Debug, PartialEq, Eq)]
pub enum FileFault {
    TooLong,
    NoRecord { at: usize },
    UnknownMark { at: usize },
    BadLength { at: usize },
    PastEnd { at: usize },
    Plate { fault: PlateFault },
}

impl From<LineFault> for PlateFault {
    ghost from_gives = { λ refused r. r ≡ Trellis refused };

    fn from(refused: LineFault) -> PlateFault {
        PlateFault::Trellis { refused }
    }
}

impl From<PlateFault> for FileFault {
    ghost from_gives = { λ fault r. r ≡ Plate fault };

    fn from(fault: PlateFault) -> FileFault {
        FileFault::Plate { fault }
    }
}

impl PlateFault {
    pub fn number(self) -> u8
        ensures { result ≡ plate_number self }
    {
        match self {
            PlateFault::Misplaced { .. } => 15,
            PlateFault::OutOfRange { .. } => 18,
            PlateFault::Trellis { refused } => refused.fault.number(),
        }
    }

    pub fn layer(self) -> Layer
        ensures { result ≡ plate_layer self }
    {
        match self {
            PlateFault::Misplaced { .. } | PlateFault::OutOfRange { .. } => Layer::Plate,
            PlateFault::Trellis { refused } => refused.fault.layer(),
        }
    }

    pub fn place(self) -> usize
        ensures { result ≡ plate_place self }
    {
        match self {
            PlateFault::Misplaced { at } | PlateFault::OutOfRange { at } => at,
            PlateFault::Trellis { refused } => refused.at,
        }
    }
}

impl FileFault {
    pub fn number(self) -> u8
        ensures { result ≡ file_number self }
    {
        match self {
            FileFault::TooLong => 12,
            FileFault::NoRecord { .. } => 13,
            FileFault::UnknownMark { .. } => 14,
            FileFault::BadLength { .. } => 16,
            FileFault::PastEnd { .. } => 17,
            FileFault::Plate { fault } => fault.number(),
        }
    }

    // The layer that found the fault, however far it was carried up.
    pub fn layer(self) -> Layer
        ensures { result ≡ file_layer self }
    {
        match self {
            FileFault::Plate { fault } => fault.layer(),
            _ => Layer::File,
        }
    }

    pub fn place(self) -> usize
        ensures { result ≡ file_place self }
    {
        match self {
            FileFault::TooLong => 0,
            FileFault::NoRecord { at }
            | FileFault::UnknownMark { at }
            | FileFault::BadLength { at }
            | FileFault::PastEnd { at } => at,
            FileFault::Plate { fault } => fault.place(),
        }
    }

    // The line that the trellis refused, if it did.
    fn refused_line(self) -> Option<LineFault>
        ensures { result ≡ refused_line self }
    {
        match self {
            FileFault::Plate {
                fault: PlateFault::Trellis { refused },
            } => Some(refused),
            _ => None,
        }
    }
}

impl fmt::Display for FileFault {
    ghost output = { λ fault. Some (fault_text fault) };

    fn fmt<W: fmt::Write>(&self, f: &mut fmt::Formatter<W>) -> fmt::Result {
        write!(f, "fault {} {}", self.number(), self.layer())?;
        if let Some(refused) = self.refused_line() {
            write!(f, " line {} pixel {}", refused.line, refused.fault.pixel())?;
        }
        write!(f, " record {}", self.place())
    }
}
