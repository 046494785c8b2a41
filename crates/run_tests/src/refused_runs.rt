// Runs with the fuse in which calls are refused, or do not find what takes them.
use crate::fuse_calls::{BURNT, CELLS, DARK, FUSE, GLOW, dark_by, fuse_told};
use crate::misses::Misses;
use crate::told::{record_of, record_text};
use crate::wanted::CLOSE;
use run::{Call, Entry};
use std::test::Fail;

fn close_by(codes: usize, preview: usize) -> Call {
    Call::Close { codes, preview }
}

// 1: a plate has 1,024 lines, so the next start is refused, whatever its width; each of the lines misses its one pixel.
#[test]
fn a_full_plate(rt: HostRuntime) -> Result<(), Fail> {
    let mut calls = [Call::Start { width: 1 }, BURNT, CLOSE].repeat(rt.alloc(), 1024)?;
    calls.extend_from_slice(&[
        Call::Start { width: 1 },
        Call::Start { width: 0 },
        Call::Report,
    ])?;
    let record: Vec<Entry<Misses>> = record_of(rt.alloc(), &FUSE, CELLS, &calls)?;
    assert!(rt; record.len() == 3075);
    assert_eq!(rt;
        record_text(rt.alloc(), &record[3069..])?.as_str(),
        "taken; taken; codes 0 preview 000 cost 1; \
         fault 1 trellis pixel 0; fault 1 trellis pixel 0; lines 1024 total 1024"
    );
    Ok(())
}

// 2: a width of 0 and one past 640. The greatest width asks for 641 columns.
#[test]
fn a_bad_width(rt: HostRuntime) -> Result<(), Fail> {
    let calls = [
        Call::Start { width: 0 },
        Call::Start { width: 641 },
        Call::Start { width: 640 },
        Call::Abandon,
        Call::Report,
    ];
    assert_eq!(rt;
        fuse_told(rt.alloc(), 641 * 3, &calls)?.as_str(),
        "fault 2 trellis pixel 0; fault 2 trellis pixel 0; taken; taken; lines 0 total 0"
    );
    Ok(())
}

// 3: two pixels ask for 9 cells. With no cells at all a bad width is still the first fault.
#[test]
fn too_few_cells(rt: HostRuntime) -> Result<(), Fail> {
    let calls = [
        Call::Start { width: 2 },
        Call::Start { width: 1 },
        DARK,
        CLOSE,
    ];
    assert_eq!(rt;
        fuse_told(rt.alloc(), 8, &calls)?.as_str(),
        "fault 3 trellis pixel 0; taken; taken; codes 0 preview 000 cost 0"
    );
    let calls = [Call::Start { width: 0 }, Call::Start { width: 1 }];
    assert_eq!(rt;
        fuse_told(rt.alloc(), 0, &calls)?.as_str(),
        "fault 2 trellis pixel 0; fault 3 trellis pixel 0"
    );
    Ok(())
}

// 4: one pixel more than the width, before 7, a code that the fuse does not have.
#[test]
fn a_full_line(rt: HostRuntime) -> Result<(), Fail> {
    let calls = [
        Call::Start { width: 2 },
        DARK,
        DARK,
        DARK,
        dark_by(2),
        CLOSE,
    ];
    assert_eq!(rt;
        fuse_told(rt.alloc(), CELLS, &calls)?.as_str(),
        "taken; taken; taken; fault 4 trellis pixel 2; fault 4 trellis pixel 2; \
         codes 0 0 preview 000 000 cost 0"
    );
    Ok(())
}

// 5: back and close on a line without pixels, before 9, a buffer that is too short.
#[test]
fn an_empty_line(rt: HostRuntime) -> Result<(), Fail> {
    let calls = [
        Call::Start { width: 1 },
        Call::Back,
        close_by(0, 0),
        DARK,
        Call::Back,
        Call::Back,
        close_by(1, 1),
        Call::Abandon,
        Call::Report,
    ];
    assert_eq!(rt;
        fuse_told(rt.alloc(), CELLS, &calls)?.as_str(),
        "taken; fault 5 trellis pixel 0; fault 5 trellis pixel 0; taken; taken; \
         fault 5 trellis pixel 0; fault 5 trellis pixel 0; taken; lines 0 total 0"
    );
    Ok(())
}

// 7: pins to codes that the fuse does not have, which leave no pixel behind.
#[test]
fn an_unknown_pin(rt: HostRuntime) -> Result<(), Fail> {
    let calls = [
        Call::Start { width: 2 },
        dark_by(2),
        DARK,
        dark_by(255),
        CLOSE,
    ];
    assert_eq!(rt;
        fuse_told(rt.alloc(), CELLS, &calls)?.as_str(),
        "taken; fault 7 trellis pixel 0; taken; fault 7 trellis pixel 1; \
         codes 0 preview 000 cost 0"
    );
    Ok(())
}

// 8: after two codes 1 the fuse is burnt, so no code can follow, with a pin and without; 7 comes before. Neither pixel shows the 000
// that is wanted.
#[test]
fn no_way(rt: HostRuntime) -> Result<(), Fail> {
    let calls = [
        Call::Start { width: 3 },
        dark_by(1),
        dark_by(1),
        DARK,
        dark_by(0),
        dark_by(1),
        dark_by(2),
        CLOSE,
    ];
    assert_eq!(rt;
        fuse_told(rt.alloc(), CELLS, &calls)?.as_str(),
        "taken; taken; taken; fault 8 trellis pixel 2; fault 8 trellis pixel 2; \
         fault 8 trellis pixel 2; fault 7 trellis pixel 2; codes 1 1 preview 700 f00 cost 2"
    );
    Ok(())
}

// 9: either buffer is too short for two pixels. The line stays open, and closes into buffers that are long enough.
#[test]
fn a_short_buffer(rt: HostRuntime) -> Result<(), Fail> {
    let calls = [
        Call::Start { width: 2 },
        GLOW,
        BURNT,
        close_by(1, 2),
        close_by(2, 1),
        close_by(2, 2),
        Call::Report,
    ];
    assert_eq!(rt;
        fuse_told(rt.alloc(), CELLS, &calls)?.as_str(),
        "taken; taken; taken; fault 9 trellis pixel 2; fault 9 trellis pixel 2; \
         codes 1 1 preview 700 f00 cost 0; lines 1 total 0"
    );
    Ok(())
}

// A call on the open line finds nothing on a plate at rest, and the run stops there, with no answer for it.
#[test]
fn no_open_line(rt: HostRuntime) -> Result<(), Fail> {
    assert_eq!(rt;
        fuse_told(rt.alloc(), CELLS, &[DARK, Call::Report])?.as_str(),
        ""
    );
    assert_eq!(rt; fuse_told(rt.alloc(), CELLS, &[dark_by(0)])?.as_str(), "");
    assert_eq!(rt; fuse_told(rt.alloc(), CELLS, &[Call::Back])?.as_str(), "");
    assert_eq!(rt; fuse_told(rt.alloc(), CELLS, &[CLOSE])?.as_str(), "");
    assert_eq!(rt;
        fuse_told(rt.alloc(), CELLS, &[Call::Abandon])?.as_str(),
        ""
    );
    Ok(())
}

// A refused start opens no line, so the pixel after it finds none.
#[test]
fn no_line_after_a_refused_start(rt: HostRuntime) -> Result<(), Fail> {
    let calls = [Call::Start { width: 0 }, DARK, Call::Report];
    assert_eq!(rt;
        fuse_told(rt.alloc(), CELLS, &calls)?.as_str(),
        "fault 2 trellis pixel 0"
    );
    Ok(())
}

// A plate with an open line takes no second one and no report; after its report there is no plate.
#[test]
fn no_plate_at_rest(rt: HostRuntime) -> Result<(), Fail> {
    let start = Call::Start { width: 1 };
    assert_eq!(rt;
        fuse_told(rt.alloc(), CELLS, &[start, DARK, start])?.as_str(),
        "taken; taken"
    );
    assert_eq!(rt;
        fuse_told(rt.alloc(), CELLS, &[start, DARK, Call::Report])?.as_str(),
        "taken; taken"
    );
    assert_eq!(rt;
        fuse_told(rt.alloc(), CELLS, &[Call::Report, start])?.as_str(),
        "lines 0 total 0"
    );
    assert_eq!(rt;
        fuse_told(rt.alloc(), CELLS, &[Call::Report, Call::Report])?.as_str(),
        "lines 0 total 0"
    );
    Ok(())
}
