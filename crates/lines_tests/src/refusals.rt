// Which of two refusals comes first.
use crate::machines::{FILL, HAM};
use cost::Summed;
use display::DisplayMachine;
use lines::{Fault, judge, show};
use std::test::Fail;

// The number and the place of a refusal, as the documents number them: the values that these tests expect.
fn refusal<T: Drop>(answer: Result<T, Fault>) -> Option<(u8, usize)> {
    answer.err().map(|fault| (fault.number(), fault.pixel()))
}

fn judged<M: DisplayMachine>(machine: &M, codes: &[u8], targets: &[u8]) -> Option<(u8, usize)> {
    refusal(judge::<M, Summed>(machine, codes, targets))
}

#[test]
fn show_names_an_unknown_code_first(rt: HostRuntime) {
    let mut preview = [1, 2];
    assert_eq!(rt;
        refusal(show(&HAM, &[47, 64, 65], &mut preview)),
        Some((7, 1))
    );
    assert_eq!(rt; refusal(show(&FILL, &[0, 16], &mut preview)), Some((7, 1)));
    assert_eq!(rt; preview, [1, 2]);
}

#[test]
fn show_names_a_short_buffer_before_a_missing_step(rt: HostRuntime) {
    let mut preview = [1];
    assert_eq!(rt; refusal(show(&FILL, &[0, 1], &mut preview)), Some((9, 2)));
    assert_eq!(rt; preview, [1]);
}

#[test]
fn a_refused_step_writes_nothing(rt: HostRuntime) {
    let mut preview = [1, 2, 3];
    assert_eq!(rt;
        refusal(show(&FILL, &[0, 5, 0], &mut preview)),
        Some((10, 0))
    );
    assert_eq!(rt; preview, [1, 2, 3]);
}

#[test]
fn judge_names_target_bytes_first(rt: HostRuntime) {
    assert_eq!(rt; judged(&HAM, &[64], &[0, 0]), Some((6, 1)));
    assert_eq!(rt; judged(&HAM, &[64, 0], &[0; 7]), Some((6, 2)));
    assert_eq!(rt; judged(&FILL, &[0], &[0; 6]), Some((6, 1)));
}

#[test]
fn judge_names_an_unknown_code_before_a_missing_step(rt: HostRuntime) {
    assert_eq!(rt; judged(&FILL, &[0, 16], &[0; 6]), Some((7, 1)));
    assert_eq!(rt; judged(&FILL, &[3, 0, 0], &[0; 9]), None);
    assert_eq!(rt; judged(&FILL, &[0, 3], &[0; 6]), Some((10, 0)));
}

#[test]
fn a_refusal_has_number_layer_and_place(rt: HostRuntime) -> Result<(), Fail> {
    let fault = Fault::NoStep { pixel: 1 };
    let text = format!(in rt.alloc(); "{fault}")?;
    assert_eq!(rt; text.as_str(), "fault 10 trellis pixel 1");
    Ok(())
}
