// A plate takes 1,024 lines and not one more. Such a file is too long to stand among the examples, so it is made here.
use cost::{Cost, Summed};
use platefile::{FileError, Lines, Opened, Piece, next_text, open_file};
use std::alloc::{AllocError, Global};
use std::process::Abort;
use std::test::Fail;

// Fill mode, summed, lines of one red pixel: 44 bytes, then 7 for each line, then EN.
fn plate_of(heap: Global, lines: usize) -> Result<Vec<u8>, AllocError> {
    let mut bytes = Vec::new(heap);
    bytes.extend_from_slice(b"HD\x04\x00FS\x01\x00PL\x20\x00\x00\x00\x00\x0f")?;
    bytes.resize(44, 0)?;
    bytes.extend_from_slice(&b"LN\x03\x00\xff\x00\x00".repeat(heap, lines)?)?;
    bytes.extend_from_slice(b"EN\x00\x00")?;
    Ok(bytes)
}

// How many lines come out, and the text that ends them.
fn last_text(heap: Global, lines: Lines<'_, Summed>, most: usize) -> Result<(usize, String), Fail> {
    let mut lines = lines;
    // By number: it is how many lines there were, and its bound ends the loop.
    for count in 0..=most {
        let Piece { text, left } = next_text(heap, lines)?;
        let Some(left) = left else {
            return Ok((count, text));
        };
        lines = left;
    }
    lines.abandon();
    Err(Fail::new("no end"))
}

fn not_summed<C: Cost>(lines: Lines<'_, C>) -> Fail {
    lines.abandon();
    Fail::new("not summed")
}

fn check_end(
    rt: &impl Abort,
    heap: Global,
    lines: usize,
    drawn: usize,
    end: &str,
) -> Result<(), Fail> {
    let input = plate_of(heap, lines)?;
    match open_file(heap, &input, input.len(), 32) {
        Ok(Opened::Summed(left)) => {
            let (count, text) = last_text(heap, left, lines)?;
            assert_eq!(rt; count, drawn);
            assert_eq!(rt; text.as_str(), end);
            Ok(())
        }
        Ok(Opened::Worst(lines)) => Err(not_summed(lines)),
        Ok(Opened::Pair(lines)) => Err(not_summed(lines)),
        Err(FileError::Fault(fault)) => Err(Fail::new(fault.number())),
        Err(FileError::NoMemory(_)) => Err(Fail::new("no memory")),
    }
}

#[test]
fn takes_1024_lines(rt: HostRuntime) -> Result<(), Fail> {
    check_end(&rt, rt.alloc(), 1024, 1024, "lines 1024 total 0\n")
}

#[test]
fn refuses_line_1025(rt: HostRuntime) -> Result<(), Fail> {
    check_end(
        &rt,
        rt.alloc(),
        1025,
        1024,
        "fault 1 trellis line 1024 pixel 0 record 7212\n",
    )
}
