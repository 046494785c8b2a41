// Costs at the greatest number.
use cost::{Cost, Pair, Summed};
use std::test::Fail;

fn pair(error: u32, count: u32) -> Pair {
    Pair { error, count }
}

#[test]
fn both_halves_stop_together(rt: HostRuntime) {
    assert_eq!(rt;
        pair(u32::MAX, 0).join(pair(1, 0)),
        pair(u32::MAX, u32::MAX)
    );
}

#[test]
fn order_stays_at_the_greatest_number(rt: HostRuntime) {
    let less = pair(u32::MAX - 1, 5);
    let more = pair(u32::MAX, 0);
    let one = pair(1, 0);
    assert!(rt; less.at_most(more) && !more.at_most(less));
    assert!(rt; less.join(one).at_most(more.join(one)));
    assert!(rt; !more.join(one).at_most(less.join(one)));
    assert_eq!(rt; less.join(one).count, 5);
}

#[test]
fn a_sum_of_the_greatest_number_keeps_its_count(rt: HostRuntime) {
    let joined = pair(u32::MAX - 1, 2).join(pair(1, u32::MAX));
    assert_eq!(rt; joined, pair(u32::MAX, u32::MAX));
    let sum = <Summed as Cost>::price(u32::MAX, false).join(<Summed as Cost>::price(1, true));
    assert_eq!(rt; sum.error, u32::MAX);
}

#[test]
fn a_pair_is_error_and_count(rt: HostRuntime) -> Result<(), Fail> {
    let cost = pair(64, 2);
    let text = format!(in rt.alloc(); "{cost}")?;
    assert_eq!(rt; text.as_str(), "64/2");
    Ok(())
}
