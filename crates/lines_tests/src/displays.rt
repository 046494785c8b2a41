// Displays: palettes, and states and codes past the ends.
use display::{Colour, DisplayMachine, Fill, HalfBrite, Ham};
use std::test::Fail;

fn bright() -> HalfBrite {
    let mut registers = [0; 32];
    registers[5] = 0xffa3;
    HalfBrite { registers }
}

#[test]
fn each_level_is_halved(rt: HostRuntime) {
    assert_eq!(rt; bright().shown(37), 0x751);
    assert_ne!(rt; bright().shown(37), 0x7d1);
}

#[test]
fn high_bits_of_a_palette_do_not_count(rt: HostRuntime) {
    let ham = Ham {
        registers: [0xf123; 16],
    };
    let fill = Fill {
        entries: [0xf123; 16],
    };
    assert_eq!(rt; ham.start(), 0x123);
    assert_eq!(rt; ham.step(0, 15), Some(0x123));
    assert_eq!(rt; bright().shown(5), 0xfa3);
    assert_eq!(rt; fill.shown(15), 0x123);
}

#[test]
fn ham_ends(rt: HostRuntime) {
    let ham = Ham { registers: [1; 16] };
    assert_eq!(rt; ham.step(4095, 63), Some(4095));
    assert_eq!(rt; ham.step(4096, 0), None);
    assert_eq!(rt; ham.step(0, 64), None);
    assert_eq!(rt; ham.step(u16::MAX, u8::MAX), None);
    assert_eq!(rt; ham.shown(4096), 0);
    assert!(rt; !ham.holds(15) && ham.holds(16) && ham.holds(63) && !ham.holds(64));
}

#[test]
fn half_brite_ends(rt: HostRuntime) {
    assert_eq!(rt; bright().step(63, 63), Some(63));
    assert_eq!(rt; bright().step(64, 0), None);
    assert_eq!(rt; bright().step(0, 64), None);
    assert_eq!(rt; bright().shown(64), 0);
    assert!(rt; !bright().holds(0) && !bright().holds(63) && !bright().holds(64));
}

#[test]
fn fill_ends(rt: HostRuntime) {
    let fill = Fill { entries: [1; 16] };
    assert_eq!(rt; fill.step(0, 0), None);
    assert_eq!(rt; fill.step(15, 0), Some(15));
    assert_eq!(rt; fill.step(0, 15), Some(15));
    assert_eq!(rt; fill.step(16, 1), None);
    assert_eq!(rt; fill.step(1, 16), None);
    assert_eq!(rt; fill.shown(16), 0);
    assert!(rt; fill.holds(0) && !fill.holds(1) && !fill.holds(16));
}

#[test]
fn a_colour_has_three_digits(rt: HostRuntime) -> Result<(), Fail> {
    let small = Colour(0x00f);
    let whole = Colour(0xfa3);
    let high = Colour(0xffff);
    let text = format!(in rt.alloc(); "{small} {whole} {high}")?;
    assert_eq!(rt; text.as_str(), "00f fa3 fff");
    Ok(())
}
