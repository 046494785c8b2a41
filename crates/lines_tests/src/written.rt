// What show leaves in a buffer, and what empty lines show and cost.
use crate::machines::HAM;
use cost::{Pair, Summed, Worst};
use lines::{Codes, Preview, judge, show};
use std::test::Fail;

#[test]
fn the_rest_of_a_buffer_stays(rt: HostRuntime) {
    let mut preview = [9, 9, 9, 9];
    assert!(rt; show(&HAM, &[47, 31], &mut preview).is_ok());
    assert_eq!(rt; preview, [0xf00, 0xf0f, 9, 9]);
}

#[test]
fn a_buffer_may_be_just_as_long(rt: HostRuntime) {
    let mut preview = [9, 9];
    assert!(rt; show(&HAM, &[63, 0], &mut preview).is_ok());
    assert_eq!(rt; preview, [0x0f0, 0x000]);
}

#[test]
fn an_empty_line_shows_nothing(rt: HostRuntime) {
    let mut preview = [9, 9];
    assert!(rt; show(&HAM, &[], &mut preview).is_ok());
    assert_eq!(rt; preview, [9, 9]);
    assert!(rt; show(&HAM, &[], &mut []).is_ok());
}

#[test]
fn an_empty_line_costs_nothing(rt: HostRuntime) {
    let pair = Pair { error: 0, count: 0 };
    assert_eq!(rt; judge(&HAM, &[], &[]), Ok(Summed { error: 0 }));
    assert_eq!(rt; judge(&HAM, &[], &[]), Ok(Worst { error: 0 }));
    assert_eq!(rt; judge(&HAM, &[], &[]), Ok(pair));
}

#[test]
fn codes_and_colours_stand_after_spaces(rt: HostRuntime) -> Result<(), Fail> {
    let codes = Codes(&[55, 0, 9]);
    let preview = Preview(&[0x070, 0xfff, 0x00a]);
    let text = format!(in rt.alloc(); "codes{codes} preview{preview}")?;
    assert_eq!(rt; text.as_str(), "codes 55 0 9 preview 070 fff 00a");
    let none = format!(in rt.alloc(); "{}{}", Codes(&[]), Preview(&[]))?;
    assert_eq!(rt; none.as_str(), "");
    Ok(())
}
