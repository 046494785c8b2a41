// Lines of one to three pixels on the Amiga's displays, with equal colours in the palettes. Every code leads on, so no pixel is refused.
use crate::compared::check_machine;
use cost::{Pair, Summed, Worst};
use display::{HalfBrite, Ham};
use run_tests::Misses;
use std::test::Fail;

#[test]
fn ham_summed(rt: HostRuntime) -> Result<(), Fail> {
    assert_eq!(rt; check_machine::<Ham, Summed>(&rt, 18, 3)?, 0);
    Ok(())
}

#[test]
fn ham_worst(rt: HostRuntime) -> Result<(), Fail> {
    assert_eq!(rt; check_machine::<Ham, Worst>(&rt, 18, 3)?, 0);
    Ok(())
}

#[test]
fn ham_pair(rt: HostRuntime) -> Result<(), Fail> {
    assert_eq!(rt; check_machine::<Ham, Pair>(&rt, 18, 3)?, 0);
    Ok(())
}

#[test]
fn ham_misses(rt: HostRuntime) -> Result<(), Fail> {
    assert_eq!(rt; check_machine::<Ham, Misses>(&rt, 18, 3)?, 0);
    Ok(())
}

#[test]
fn half_brite_summed(rt: HostRuntime) -> Result<(), Fail> {
    assert_eq!(rt; check_machine::<HalfBrite, Summed>(&rt, 12, 3)?, 0);
    Ok(())
}

#[test]
fn half_brite_worst(rt: HostRuntime) -> Result<(), Fail> {
    assert_eq!(rt; check_machine::<HalfBrite, Worst>(&rt, 12, 3)?, 0);
    Ok(())
}

#[test]
fn half_brite_pair(rt: HostRuntime) -> Result<(), Fail> {
    assert_eq!(rt; check_machine::<HalfBrite, Pair>(&rt, 12, 3)?, 0);
    Ok(())
}
