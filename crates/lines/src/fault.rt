// Refusals.
ghost use Rattle.std.specs.Prelude.{◌≡◌, Some};
ghost use Rattle.lines.specs.Faults.{layer_of, number_of, place_of};
ghost use Rattle.lines.specs.Texts.{fault_text, layer_text};

use std::fmt;

// The layer that a refusal names.
#[derive(Clone, Copy, Debug, PartialEq, Eq)]
pub enum Layer {
    Trellis,
    Plate,
    File,
}

// Why a call was refused. The pixel is counted from 0; where no single pixel is at fault, it is how many the line has.
#[derive(Clone, Copy, Debug, PartialEq, Eq)]
pub enum Fault {
    PlateFull,
    BadWidth,
    TooFewCells { pixel: usize },
    LineFull { pixel: usize },
    LineEmpty,
    TargetBytes { pixel: usize },
    UnknownCode { pixel: usize },
    NoWay { pixel: usize },
    ShortBuffer { pixel: usize },
    NoStep { pixel: usize },
    BrokenCells { pixel: usize },
}

impl Fault {
    pub fn number(self) -> u8
        ensures { result ≡ number_of self }
    {
        match self {
            Fault::PlateFull => 1,
            Fault::BadWidth => 2,
            Fault::TooFewCells { .. } => 3,
            Fault::LineFull { .. } => 4,
            Fault::LineEmpty => 5,
            Fault::TargetBytes { .. } => 6,
            Fault::UnknownCode { .. } => 7,
            Fault::NoWay { .. } => 8,
            Fault::ShortBuffer { .. } => 9,
            Fault::NoStep { .. } => 10,
            Fault::BrokenCells { .. } => 11,
        }
    }

    pub fn layer(self) -> Layer
        ensures { result ≡ layer_of self }
    {
        Layer::Trellis
    }

    pub fn pixel(self) -> usize
        ensures { result ≡ place_of self }
    {
        match self {
            Fault::PlateFull | Fault::BadWidth | Fault::LineEmpty => 0,
            Fault::TooFewCells { pixel }
            | Fault::LineFull { pixel }
            | Fault::TargetBytes { pixel }
            | Fault::UnknownCode { pixel }
            | Fault::NoWay { pixel }
            | Fault::ShortBuffer { pixel }
            | Fault::NoStep { pixel }
            | Fault::BrokenCells { pixel } => pixel,
        }
    }
}

impl fmt::Display for Layer {
    ghost output = { λ layer. Some (layer_text layer) };

    fn fmt<W: fmt::Write>(&self, f: &mut fmt::Formatter<W>) -> fmt::Result {
        match self {
            Self::Trellis => write!(f, "trellis"),
            Self::Plate => write!(f, "plate"),
            Self::File => write!(f, "file"),
        }
    }
}

impl fmt::Display for Fault {
    ghost output = { λ fault. Some (fault_text fault) };

    fn fmt<W: fmt::Write>(&self, f: &mut fmt::Formatter<W>) -> fmt::Result {
        write!(
            f,
            "fault {} {} pixel {}",
            self.number(),
            self.layer(),
            self.pixel()
        )
    }
}
