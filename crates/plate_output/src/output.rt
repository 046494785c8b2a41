// Prints a plate file, each line as soon as it is drawn.
use crate::bounds::Bounds;
use anyhow::anyhow;
use cost::Cost;
use platefile::{FaultLine, FileError, Lines, Opened, Piece, next_text, open_file};
use std::fmt::Display;

fn no_memory() -> anyhow::Error {
    anyhow!("not enough memory")
}

// Prints the pieces as they come. A line leaves fewer bytes to read, so the turns end.
fn print_lines<R: Print + AllocGlobal, C: Cost + Display>(
    rt: &R,
    lines: Lines<'_, C>,
) -> anyhow::Result<()> {
    let mut next = Some(lines);
    while let Some(lines) = next {
        let Piece { text, left } = next_text(rt.alloc(), lines).map_err(|_| no_memory())?;
        if let Err(error) = print!(rt; "{text}") {
            if let Some(left) = left {
                left.abandon();
            }
            return Err(error.into());
        }
        next = left;
    }
    Ok(())
}

// Prints the lines of a file and its total, or the fault that ends it.
pub fn print_file<R: Print + AllocGlobal>(
    rt: &R,
    input: &[u8],
    bounds: Bounds,
) -> anyhow::Result<()> {
    match open_file(rt.alloc(), input, bounds.limit, bounds.cells) {
        Ok(Opened::Summed(lines)) => print_lines(rt, lines),
        Ok(Opened::Worst(lines)) => print_lines(rt, lines),
        Ok(Opened::Pair(lines)) => print_lines(rt, lines),
        Err(FileError::Fault(fault)) => {
            print!(rt; "{}", FaultLine(fault))?;
            Ok(())
        }
        Err(FileError::NoMemory(_)) => Err(no_memory()),
    }
}
