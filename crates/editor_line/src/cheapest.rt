// The cheapest line of wanted colours, by the calls on a plate.
ghost use Rattle.std.specs.Prelude.{◌≡◌, ◌+◌, ◌*◌, ◌/◌, ◌≤◌, length, IfOk};
ghost use Rattle.cost.specs.Kinds.{summed};
ghost use Rattle.lines.specs.Lines.{targets_of};
ghost use Rattle.lines.specs.Checks.{answer};
ghost use Rattle.run.specs.Promise.{Promise};
ghost use Rattle.editor_line.specs.Cheapest.{Cheapest, first_refusal, line_calls, line_read};

use cost::Summed;
use display::{DisplayMachine, Target};
use lines::Fault;
use one_line::{DrawError, Figures, draw_line, line_cells};
use run::{Answer, Call, Entry, buffers, run};
use std::alloc::{AllocError, Global};
use trellis::{Report, WIDEST};

// A closed line, and what its plate came to.
#[derive(Drop)]
pub struct FoundLine {
    pub codes: Vec<u8>,
    pub preview: Vec<u16>,
    pub figures: Figures<Summed>,
}

// The calls that make a plate of one line: start, a pixel for each target, close, report.
pub fn line_calls(heap: Global, targets: &[u8]) -> Result<Vec<Call>, AllocError>
    requires { length targets.now ≤ 1920 }
    ensures { IfOk result (λ calls. calls.items ≡ line_calls (targets_of targets.now)) }
{
    let (whole, _) = targets.as_chunks::<3>();
    let pixels = whole.len();
    let start = Call::Start {
        width: pixels as u16,
    };
    let mut calls = vec![in heap; start]?;
    calls.extend(
        whole.iter().map(|bytes| Call::Pixel {
            target: Target::from(*bytes),
        }),
    )?;
    calls.push(Call::Close {
        codes: pixels,
        preview: pixels,
    })?;
    calls.push(Call::Report)?;
    Ok(calls)
}

// The record of those calls, made with a column of cells for each target and one more.
pub fn line_record<M: DisplayMachine>(
    heap: Global,
    machine: &M,
    targets: &[u8],
) -> Result<Vec<Entry<Summed>>, AllocError>
    requires { length targets.now ≤ 1920 }
    ensures { IfOk result (λ entries. Promise (M.meaning machine.now) summed ((length targets.now / 3 + 1) * (M.meaning machine.now).states) (line_calls (targets_of targets.now)) entries.items) }
{
    let mut cells = line_cells(heap, machine, (targets.len() / 3) as u16)?;
    let calls = line_calls(heap, targets)?;
    run(heap, machine, &mut cells, &calls)
}

// The first refusal in a record.
fn first_refusal(entries: &[Entry<Summed>]) -> Option<Fault>
    ensures { result ≡ first_refusal entries.now }
{
    for entry in entries {
        if let Err(fault) = entry.answer {
            return Some(fault);
        }
    }
    None
}

// The line that the last two calls of a record closed and reported, if they did.
fn last_line(mut entries: Vec<Entry<Summed>>) -> Option<FoundLine>
    ensures { result ≡ line_read entries.items }
{
    let Ok(Answer::Reported { lines, total }) = entries.pop()?.answer else {
        return None;
    };
    let Ok(
        Answer::Closed {
            codes,
            preview,
            cost,
        },
    ) = entries.pop()?.answer
    else {
        return None;
    };
    Some(FoundLine {
        codes,
        preview,
        figures: Figures {
            cost,
            report: Report { lines, total },
        },
    })
}

// The line of a record, if its last two calls closed and reported one; or the first refusal in it.
pub fn read_record(entries: Vec<Entry<Summed>>) -> Result<Option<FoundLine>, Fault>
    ensures { result ≡ answer (first_refusal entries.items) (line_read entries.items) }
{
    match first_refusal(&entries) {
        Some(fault) => Err(fault),
        None => Ok(last_line(entries)),
    }
}

// The cheapest line of these targets, or why there is none.
pub fn cheapest_line<M: DisplayMachine>(
    heap: Global,
    machine: &M,
    targets: &[u8],
) -> Result<FoundLine, DrawError>
    ensures { Cheapest (M.meaning machine.now) targets.now result }
{
    let pixels = targets.len() / 3;
    // Refused by start too; but the cells are made first, and for a width that a u16 counts.
    if pixels > usize::from(WIDEST) {
        return Err(Fault::BadWidth.into());
    }
    let mut cells = line_cells(heap, machine, pixels as u16)?;
    let (mut codes, mut preview) = buffers(heap, pixels, pixels)?;
    let figures = draw_line(machine, &mut cells, targets, &mut codes, &mut preview)?;
    Ok(FoundLine {
        codes,
        preview,
        figures,
    })
}
