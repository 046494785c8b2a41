// Runs with the fuse. It shows 000 while dark, 700 while it glows and f00 when burnt, so a legal line is some codes 0, a code 1,
// some codes 0, and at the very end perhaps another code 1. What a run should come to is worked out by hand from that.
use crate::fuse::Fuse;
use crate::fuse_calls::{BURNT, CELLS, DARK, FUSE, GLOW, dark_by, fuse_told};
use crate::litter::littered;
use crate::misses::Misses;
use crate::told::{record_text, told};
use crate::wanted::{CLOSE, HAM, HAM_CELLS, OLIVE, TEAL};
use cost::{Pair, Summed, Worst};
use display::Ham;
use run::{Call, Entry, run};
use std::test::Fail;

// Wanted 700 000 f00. The lines 000 001 010 011 100 101 miss 2, 2, 3, 2, 2 and 1 of them.
#[test]
fn the_cheapest_line(rt: HostRuntime) -> Result<(), Fail> {
    let calls = [
        Call::Start { width: 3 },
        GLOW,
        DARK,
        BURNT,
        CLOSE,
        Call::Report,
    ];
    assert_eq!(rt;
        fuse_told(rt.alloc(), CELLS, &calls)?.as_str(),
        "taken; taken; taken; taken; codes 1 0 1 preview 700 700 f00 cost 1; lines 1 total 1"
    );
    Ok(())
}

// The same by the other kinds. Line 101 has the errors 0, 49, 0 and one code that holds; each other line has an error of 49 at least
// at two pixels, and of the ways to burnt that are at most 49 at each pixel, 011 keeps the lower state at the first.
#[test]
fn other_kinds_on_the_fuse(rt: HostRuntime) -> Result<(), Fail> {
    let calls = [Call::Start { width: 3 }, GLOW, DARK, BURNT, CLOSE];
    assert_eq!(rt;
        told::<Fuse, Summed>(rt.alloc(), &FUSE, CELLS, &calls)?.as_str(),
        "taken; taken; taken; taken; codes 1 0 1 preview 700 700 f00 cost 49"
    );
    assert_eq!(rt;
        told::<Fuse, Worst>(rt.alloc(), &FUSE, CELLS, &calls)?.as_str(),
        "taken; taken; taken; taken; codes 0 1 1 preview 000 700 f00 cost 49"
    );
    assert_eq!(rt;
        told::<Fuse, Pair>(rt.alloc(), &FUSE, CELLS, &calls)?.as_str(),
        "taken; taken; taken; taken; codes 1 0 1 preview 700 700 f00 cost 49/1"
    );
    Ok(())
}

// Misses with HAM, all registers 000. No code shows 870 at once, so the first pixel is missed; 077 can follow on 007 and on 070,
// and 007 is the lower.
#[test]
fn misses_on_another_machine(rt: HostRuntime) -> Result<(), Fail> {
    let calls = [Call::Start { width: 2 }, OLIVE, TEAL, CLOSE];
    assert_eq!(rt;
        told::<Ham, Misses>(rt.alloc(), &HAM, HAM_CELLS, &calls)?.as_str(),
        "taken; taken; taken; codes 23 55 preview 007 077 cost 1"
    );
    Ok(())
}

// Wanted f00 alone: both codes miss it, and dark is the lower state. Wanted f00 700: 01 and 10 both miss the first pixel alone,
// and the first of them in the order of the state before, dark, stays.
#[test]
fn ties(rt: HostRuntime) -> Result<(), Fail> {
    let calls = [
        Call::Start { width: 1 },
        BURNT,
        CLOSE,
        Call::Start { width: 2 },
        BURNT,
        GLOW,
        CLOSE,
        Call::Report,
    ];
    assert_eq!(rt;
        fuse_told(rt.alloc(), CELLS, &calls)?.as_str(),
        "taken; taken; codes 0 preview 000 cost 1; \
         taken; taken; taken; codes 0 1 preview 000 700 cost 1; lines 2 total 2"
    );
    Ok(())
}

// Wanted 000 000 700. Free, 001 misses nothing. With code 1 at the first pixel, 100 misses two and 101 all three.
#[test]
fn a_pin(rt: HostRuntime) -> Result<(), Fail> {
    let calls = [
        Call::Start { width: 3 },
        DARK,
        DARK,
        GLOW,
        CLOSE,
        Call::Start { width: 3 },
        dark_by(1),
        DARK,
        GLOW,
        CLOSE,
    ];
    assert_eq!(rt;
        fuse_told(rt.alloc(), CELLS, &calls)?.as_str(),
        "taken; taken; taken; taken; codes 0 0 1 preview 000 000 700 cost 0; \
         taken; taken; taken; taken; codes 1 0 0 preview 700 700 700 cost 2"
    );
    Ok(())
}

// Back takes the pin with its pixel, so the line is again the free one of wanted 000 000 700.
#[test]
fn back_takes_the_pin(rt: HostRuntime) -> Result<(), Fail> {
    let calls = [
        Call::Start { width: 3 },
        DARK,
        dark_by(1),
        Call::Back,
        DARK,
        GLOW,
        CLOSE,
    ];
    assert_eq!(rt;
        fuse_told(rt.alloc(), CELLS, &calls)?.as_str(),
        "taken; taken; taken; taken; taken; taken; codes 0 0 1 preview 000 000 700 cost 0"
    );
    Ok(())
}

// After back, 700 000 are wanted. The lines 00 01 10 11 miss 1, 2, 1 and 2 of them, and 00 ends in the lower state.
#[test]
fn a_close_after_back(rt: HostRuntime) -> Result<(), Fail> {
    let calls = [
        Call::Start { width: 3 },
        GLOW,
        DARK,
        BURNT,
        Call::Back,
        CLOSE,
        Call::Report,
    ];
    assert_eq!(rt;
        fuse_told(rt.alloc(), CELLS, &calls)?.as_str(),
        "taken; taken; taken; taken; taken; codes 0 0 preview 000 000 cost 1; lines 1 total 1"
    );
    Ok(())
}

// An abandoned line is in neither figure of the report, and what it left in the cells does not matter.
#[test]
fn an_abandoned_line(rt: HostRuntime) -> Result<(), Fail> {
    let calls = [
        Call::Start { width: 3 },
        GLOW,
        GLOW,
        GLOW,
        Call::Abandon,
        Call::Start { width: 1 },
        BURNT,
        CLOSE,
        Call::Report,
    ];
    assert_eq!(rt;
        fuse_told(rt.alloc(), CELLS, &calls)?.as_str(),
        "taken; taken; taken; taken; taken; taken; taken; codes 0 preview 000 cost 1; lines 1 total 1"
    );
    Ok(())
}

// A second run on the cells that a first one left.
#[test]
fn cells_used_again(rt: HostRuntime) -> Result<(), Fail> {
    let mut cells = littered(rt.alloc(), CELLS)?;
    let calls = [Call::Start { width: 3 }, GLOW, DARK, BURNT, CLOSE];
    let first: Vec<Entry<Misses>> = run(rt.alloc(), &FUSE, &mut cells, &calls)?;
    let second: Vec<Entry<Misses>> = run(rt.alloc(), &FUSE, &mut cells, &calls)?;
    let text = "taken; taken; taken; taken; codes 1 0 1 preview 700 700 f00 cost 1";
    assert_eq!(rt; record_text(rt.alloc(), &first)?.as_str(), text);
    assert_eq!(rt; record_text(rt.alloc(), &second)?.as_str(), text);
    Ok(())
}
