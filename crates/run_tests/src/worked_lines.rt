// Lines whose codes, preview and cost are known from outside.
use crate::told::told;
use crate::wanted::{CLOSE, HAM, HAM_CELLS, OLIVE, RED_TARGET, TEAL};
use cost::{Pair, Summed, Worst};
use display::{Fill, HalfBrite, Ham, Target};
use run::Call;
use std::test::Fail;

// Column 0 and three more.
const FILL_CELLS: usize = 4 * 16;

// Fill mode's entries 0, 1 and 2; the rest are as entry 0.
const BLACK_RED_GREEN: Fill = Fill {
    entries: [0, 0xf00, 0x0f0, 0, 0, 0, 0, 0, 0, 0, 0, 0, 0, 0, 0, 0],
};

const YELLOW: Call = Call::Pixel {
    target: Target {
        red: 255,
        green: 255,
        blue: 0,
    },
};

const RED: Call = Call::Pixel { target: RED_TARGET };

const GREEN: Call = Call::Pixel {
    target: Target {
        red: 0,
        green: 255,
        blue: 0,
    },
};

#[test]
fn ham_summed(rt: HostRuntime) -> Result<(), Fail> {
    let calls = [Call::Start { width: 2 }, OLIVE, TEAL, CLOSE, Call::Report];
    assert_eq!(rt;
        told::<Ham, Summed>(rt.alloc(), &HAM, HAM_CELLS, &calls)?.as_str(),
        "taken; taken; taken; codes 55 23 preview 070 077 cost 64; lines 1 total 64"
    );
    Ok(())
}

#[test]
fn ham_worst(rt: HostRuntime) -> Result<(), Fail> {
    let calls = [Call::Start { width: 2 }, OLIVE, TEAL, CLOSE, Call::Report];
    assert_eq!(rt;
        told::<Ham, Worst>(rt.alloc(), &HAM, HAM_CELLS, &calls)?.as_str(),
        "taken; taken; taken; codes 55 52 preview 070 040 cost 64; lines 1 total 64"
    );
    Ok(())
}

// Register 1 would do as well at the first pixel; the lower state on the way to the last one is 0f0.
#[test]
fn ham_with_a_white_register(rt: HostRuntime) -> Result<(), Fail> {
    let mut ham = HAM;
    ham.registers[1] = 0xfff;
    let calls = [Call::Start { width: 2 }, YELLOW, YELLOW, CLOSE];
    assert_eq!(rt;
        told::<Ham, Summed>(rt.alloc(), &ham, HAM_CELLS, &calls)?.as_str(),
        "taken; taken; taken; codes 63 47 preview 0f0 ff0 cost 225"
    );
    Ok(())
}

// Register 5 at half its brightness is 751; the other registers are 000.
#[test]
fn half_brite_summed(rt: HostRuntime) -> Result<(), Fail> {
    let mut half_brite = HalfBrite { registers: [0; 32] };
    half_brite.registers[5] = 0xfa3;
    let target = Target {
        red: 0x70,
        green: 0x50,
        blue: 0x10,
    };
    let calls = [Call::Start { width: 1 }, Call::Pixel { target }, CLOSE];
    assert_eq!(rt;
        told::<HalfBrite, Summed>(rt.alloc(), &half_brite, 128, &calls)?.as_str(),
        "taken; taken; codes 37 preview 751 cost 0"
    );
    Ok(())
}

#[test]
fn fill_summed(rt: HostRuntime) -> Result<(), Fail> {
    let calls = [Call::Start { width: 3 }, RED, RED, GREEN, CLOSE];
    assert_eq!(rt;
        told::<Fill, Summed>(rt.alloc(), &BLACK_RED_GREEN, FILL_CELLS, &calls)?.as_str(),
        "taken; taken; taken; taken; codes 1 0 2 preview f00 f00 0f0 cost 0"
    );
    Ok(())
}

// The pair counts codes that hold, so code 1 comes again in place of code 0.
#[test]
fn fill_pair(rt: HostRuntime) -> Result<(), Fail> {
    let calls = [Call::Start { width: 3 }, RED, RED, GREEN, CLOSE];
    assert_eq!(rt;
        told::<Fill, Pair>(rt.alloc(), &BLACK_RED_GREEN, FILL_CELLS, &calls)?.as_str(),
        "taken; taken; taken; taken; codes 1 1 2 preview f00 f00 0f0 cost 0/0"
    );
    Ok(())
}

// There is nothing to repeat at the first pixel. The refusal leaves the line as it was, so the same pixel is then free.
#[test]
fn fill_pinned_to_nothing(rt: HostRuntime) -> Result<(), Fail> {
    let repeat = Call::Pin {
        target: RED_TARGET,
        code: 0,
    };
    let calls = [Call::Start { width: 3 }, repeat, RED, RED, GREEN, CLOSE];
    assert_eq!(rt;
        told::<Fill, Summed>(rt.alloc(), &BLACK_RED_GREEN, FILL_CELLS, &calls)?.as_str(),
        "taken; fault 8 trellis pixel 0; taken; taken; taken; codes 1 0 2 preview f00 f00 0f0 cost 0"
    );
    Ok(())
}
