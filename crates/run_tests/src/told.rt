// A run as text: what each of its calls answered, one after another.
use crate::litter::littered;
use cost::Cost;
use display::DisplayMachine;
use lines::{Codes, Fault, Preview};
use run::{Answer, Call, Entry, run};
use std::alloc::{AllocError, Global};
use std::fmt::{self, Display, Write};
use std::io;

// The record of the calls, on so many cells with litter in them.
pub fn record_of<M: DisplayMachine, C: Cost>(
    heap: Global,
    machine: &M,
    cells: usize,
    calls: &[Call],
) -> Result<Vec<Entry<C>>, AllocError> {
    let mut cells = littered(heap, cells)?;
    run(heap, machine, &mut cells, calls)
}

// An answer, printed.
#[derive(Drop)]
struct AnswerText<'a, C: Drop>(&'a Result<Answer<C>, Fault>);

impl<C: Cost + Display> Display for AnswerText<'_, C> {
    fn fmt<W: fmt::Write>(&self, f: &mut fmt::Formatter<W>) -> fmt::Result {
        match self.0 {
            Ok(Answer::Taken) => write!(f, "taken"),
            Ok(
                Answer::Closed {
                    codes,
                    preview,
                    cost,
                },
            ) => {
                let codes = Codes(codes);
                let preview = Preview(preview);
                write!(f, "codes{codes} preview{preview} cost {cost}")
            }
            Ok(Answer::Reported { lines, total }) => write!(f, "lines {lines} total {total}"),
            Err(fault) => write!(f, "{fault}"),
        }
    }
}

pub fn record_text<C: Cost + Display>(heap: Global, entries: &[Entry<C>]) -> io::Result<String> {
    let mut text = String::new(heap);
    for entry in entries {
        if !text.is_empty() {
            text.push_str("; ")?;
        }
        let answer = AnswerText(&entry.answer);
        write!(text, "{answer}")?;
    }
    Ok(text)
}

// What the calls answer, on so many cells with litter in them.
pub fn told<M: DisplayMachine, C: Cost + Display>(
    heap: Global,
    machine: &M,
    cells: usize,
    calls: &[Call],
) -> io::Result<String> {
    let record: Vec<Entry<C>> = record_of(heap, machine, cells, calls)?;
    record_text(heap, &record)
}
