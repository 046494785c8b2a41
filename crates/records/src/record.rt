// The records of a plate file, as parts of the input.
ghost use Rattle.std.specs.Prelude.{◌≡◌, cond, is_some, slice_index};
ghost use Rattle.std.specs.Option.{ok_or, unwrap_or};
ghost use Rattle.records.specs.Records.{asks, mark_of, next_stage};

use crate::fault::PlateFault;

#[derive(Clone, Copy, Debug, PartialEq, Eq)]
pub enum Mark {
    Header,
    Palette,
    Pins,
    Line,
    End,
}

// A record's body borrows from the input.
#[derive(Clone, Copy)]
pub enum Record<'a> {
    Header { machine: u8, cost: u8, width: u16 },
    Palette { colours: &'a [u8] },
    Pins { pins: &'a [u8] },
    Line { targets: &'a [u8] },
    End,
}

// What the reader has had, and so what may come next.
#[derive(Clone, Copy, Debug, PartialEq, Eq)]
pub enum Stage {
    Header,
    Palette,
    Lines,
    Pinned,
    Over,
}

// Two bytes that mark no record.
#[derive(Clone, Copy, Debug, PartialEq, Eq)]
pub struct UnknownMark(pub [u8; 2]);

impl TryFrom<[u8; 2]> for Mark {
    type Error = UnknownMark;

    ghost try_from_gives = { λ bytes r. r ≡ ok_or (mark_of (slice_index bytes 0) (slice_index bytes 1)) (record { 0 = bytes }) };

    fn try_from(bytes: [u8; 2]) -> Result<Mark, UnknownMark> {
        match &bytes {
            b"HD" => Ok(Mark::Header),
            b"PL" => Ok(Mark::Palette),
            b"PN" => Ok(Mark::Pins),
            b"LN" => Ok(Mark::Line),
            b"EN" => Ok(Mark::End),
            _ => Err(UnknownMark(bytes)),
        }
    }
}

impl Stage {
    // Goes on past the record with this mark that begins at byte `at`, if one may stand here.
    pub(crate) fn take(&mut self, mark: Mark, at: usize) -> Result<(), PlateFault>
        ensures value { result ≡ cond (is_some (next_stage self.old mark)) (Ok tt) (Err (PlateFault.Misplaced at)) }
        ensures after { self.new ≡ unwrap_or (next_stage self.old mark) self.old }
    {
        *self = match (*self, mark) {
            (Stage::Header, Mark::Header) => Stage::Palette,
            (Stage::Palette, Mark::Palette) => Stage::Lines,
            (Stage::Lines, Mark::Pins) => Stage::Pinned,
            (Stage::Lines | Stage::Pinned, Mark::Line) => Stage::Lines,
            (Stage::Lines, Mark::End) => Stage::Over,
            _ => return Err(PlateFault::Misplaced { at }),
        };
        Ok(())
    }
}

// Whether a body may be this long, by the number of the palette's colours and the width.
pub(crate) fn body_length_is_right(colours: usize, width: u16, mark: Mark, length: usize) -> bool
    ensures { result ≡ asks colours width mark length }
{
    match mark {
        Mark::Header => length == 4,
        Mark::Palette => length % 2 == 0 && length / 2 == colours,
        Mark::Pins => length % 3 == 0 && length >= 3,
        Mark::Line => length == 3 * usize::from(width),
        Mark::End => length == 0,
    }
}
