// The calls of a line, made one after another on a plate, come to the line that the program prints.
use crate::WANTED;
use crate::cheapest::{cheapest_line, line_record, read_record};
use display::Ham;
use one_line::DrawError;
use std::test::Fail;

#[test]
fn calls_come_to_the_line_that_is_printed(rt: HostRuntime) -> Result<(), Fail> {
    let ham = Ham { registers: [0; 16] };
    let record = line_record(rt.alloc(), &ham, &WANTED)?;
    let Ok(read) = read_record(record) else {
        return Err(Fail::new("a call is refused"));
    };
    let Some(called) = read else {
        return Err(Fail::new("no line is closed and reported"));
    };
    let printed = match cheapest_line(rt.alloc(), &ham, &WANTED) {
        Ok(found) => found,
        Err(DrawError::Refused(_)) => return Err(Fail::new("the line is refused")),
        Err(DrawError::NoMemory(lack)) => return Err(lack.into()),
    };
    assert_eq!(rt; called.codes.as_slice(), printed.codes.as_slice());
    assert_eq!(rt; called.preview.as_slice(), printed.preview.as_slice());
    assert_eq!(rt; called.figures.cost, printed.figures.cost);
    assert_eq!(rt; called.figures.report.lines, printed.figures.report.lines);
    assert_eq!(rt; called.figures.report.total, printed.figures.report.total);
    Ok(())
}
