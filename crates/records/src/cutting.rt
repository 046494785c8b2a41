// Cuts the record at the front of the input.
ghost use Rattle.records.specs.Cutting.{Cuts, Whole};
ghost use Rattle.records.specs.Records.{RecordIs};

use crate::fault::FileFault;
use crate::record::{Mark, Record, Stage, body_length_is_right};

// The record that begins at byte `at`, from which on `input` is given. A refusal leaves the stage as it was.
pub fn cut<'a>(
    input: &'a [u8],
    at: usize,
    stage: &mut Stage,
    colours: usize,
    width: u16,
) -> Result<Record<'a>, FileFault>
    ensures { Cuts colours width stage.old at input.now result stage.new }
{
    let [m0, m1, l0, l1, rest @ ..] = input else {
        return Err(FileFault::NoRecord { at });
    };
    let Ok(mark) = Mark::try_from([*m0, *m1]) else {
        return Err(FileFault::UnknownMark { at });
    };
    let mut next = *stage;
    next.take(mark, at)?;
    let length = usize::from(u16::from_le_bytes([*l0, *l1]));
    if !body_length_is_right(colours, width, mark, length) {
        return Err(FileFault::BadLength { at });
    }
    let Some(body) = rest.get(..length) else {
        return Err(FileFault::PastEnd { at });
    };
    *stage = next;
    Ok(record_of(mark, body))
}

fn record_of(mark: Mark, body: &[u8]) -> Record<'_>
    requires { Whole mark body.now }
    ensures { RecordIs mark body.now result }
{
    match mark {
        Mark::Header => Record::Header {
            machine: body[0],
            cost: body[1],
            width: u16::from_le_bytes([body[2], body[3]]),
        },
        Mark::Palette => Record::Palette { colours: body },
        Mark::Pins => Record::Pins { pins: body },
        Mark::Line => Record::Line { targets: body },
        Mark::End => Record::End,
    }
}
