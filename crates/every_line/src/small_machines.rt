// Lines of up to six pixels of the fuse, of which few are legal, since nothing follows once it is burnt; and of up to four pixels in
// fill mode, with equal colours in the palette. Of the pinned pixels some are refused: one that has nothing to follow or to repeat.
use crate::compared::{check_line, check_machine};
use crate::encoder::{Wanted, cheapest_line};
use cost::{Pair, Summed, Worst};
use display::{Fill, Target};
use run_tests::{Fuse, Misses, littered};
use std::test::Fail;

#[test]
fn fuse_summed(rt: HostRuntime) -> Result<(), Fail> {
    assert!(rt; check_machine::<Fuse, Summed>(&rt, 240, 6)? > 0);
    Ok(())
}

#[test]
fn fuse_worst(rt: HostRuntime) -> Result<(), Fail> {
    assert!(rt; check_machine::<Fuse, Worst>(&rt, 240, 6)? > 0);
    Ok(())
}

#[test]
fn fuse_pair(rt: HostRuntime) -> Result<(), Fail> {
    assert!(rt; check_machine::<Fuse, Pair>(&rt, 240, 6)? > 0);
    Ok(())
}

#[test]
fn fuse_misses(rt: HostRuntime) -> Result<(), Fail> {
    assert!(rt; check_machine::<Fuse, Misses>(&rt, 240, 6)? > 0);
    Ok(())
}

#[test]
fn fill_summed(rt: HostRuntime) -> Result<(), Fail> {
    assert!(rt; check_machine::<Fill, Summed>(&rt, 120, 4)? > 0);
    Ok(())
}

#[test]
fn fill_worst(rt: HostRuntime) -> Result<(), Fail> {
    assert!(rt; check_machine::<Fill, Worst>(&rt, 120, 4)? > 0);
    Ok(())
}

#[test]
fn fill_pair(rt: HostRuntime) -> Result<(), Fail> {
    assert!(rt; check_machine::<Fill, Pair>(&rt, 120, 4)? > 0);
    Ok(())
}

#[test]
fn fill_misses(rt: HostRuntime) -> Result<(), Fail> {
    assert!(rt; check_machine::<Fill, Misses>(&rt, 120, 4)? > 0);
    Ok(())
}

fn wanted(red: u8) -> Wanted {
    Wanted {
        target: Target {
            red,
            green: 0,
            blue: 0,
        },
        pin: None,
    }
}

// Wanted 700 000 f00, by the largest error. After the first pixel dark is dearer than glowing, 49 against 0; the second brings 49 to
// both, so that they tie as ways to glowing, and dark is the lower state. A rule that took the cheaper one would find 1 0 1.
#[test]
fn a_dearer_state_ties(rt: HostRuntime) -> Result<(), Fail> {
    let fuse = Fuse {
        colours: [0x000, 0x700, 0xf00],
    };
    let line = [wanted(112), wanted(0), wanted(255)];
    let found = cheapest_line::<Fuse, Worst>(rt.alloc(), &fuse, &line)?;
    let Some(best) = found else {
        return Err(Fail::new("no line"));
    };
    assert_eq!(rt; best.codes.as_slice(), [0u8, 1, 1].as_slice());
    assert_eq!(rt; best.cost.error, 49);
    let mut cells = littered::<Worst>(rt.alloc(), 4 * 3)?;
    assert_eq!(rt; check_line(&rt, &fuse, &mut cells, &line)?.tied, 1);
    Ok(())
}
