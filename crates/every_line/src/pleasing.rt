// Programs that please the eye: each looks right, and answers something else than the displays, the cost kinds and the calls here.
use cost::{Cost, Pair, Summed};
use display::{DisplayMachine, HalfBrite, Ham, Levels, Target};
use lines::{judge, show};
use run::{Answer, Call, Entry, run};
use run_tests::littered;
use std::alloc::{AllocError, Global};
use std::test::Fail;

// Stated here too: those of `run_tests` stand in its test modules, which no other crate sees.
const HAM: Ham = Ham { registers: [0; 16] };

const OLIVE: Target = Target {
    red: 136,
    green: 119,
    blue: 0,
};

const TEAL: Target = Target {
    red: 0,
    green: 119,
    blue: 119,
};

// The same two, byte by byte.
const OLIVE_TEAL: [u8; 6] = [136, 119, 0, 0, 119, 119];

// The first code from a state that shows the nearest colour, and where it leads. Its own few lines, since the editor's stand in a
// program, which is no library; a crate for the two would be no plainer.
fn nearest<M: DisplayMachine>(machine: &M, state: u16, wanted: Levels) -> Option<(u8, u16)> {
    (0..machine.codes())
        .filter_map(|code| Some((code, machine.step(state, code)?)))
        .min_by_key(|(_, next)| wanted.error(machine.shown(*next)))
}

// A line that takes the nearest colour at each pixel, whatever that does to the next one.
fn nearest_codes<M: DisplayMachine>(
    heap: Global,
    machine: &M,
    targets: &[Target],
) -> Result<Vec<u8>, AllocError> {
    let mut codes = Vec::new(heap);
    let mut state = machine.start();
    for target in targets {
        if let Some((code, next)) = nearest(machine, state, target.levels()) {
            codes.push(code)?;
            state = next;
        }
    }
    Ok(codes)
}

#[test]
fn nearest_colours_pay_147(rt: HostRuntime) -> Result<(), Fail> {
    let codes = nearest_codes(rt.alloc(), &HAM, &[OLIVE, TEAL])?;
    assert_eq!(rt; judge(&HAM, &codes, &OLIVE_TEAL), Ok(Summed { error: 147 }));
    Ok(())
}

#[test]
fn the_calls_pay_64(rt: HostRuntime) -> Result<(), Fail> {
    let calls = [
        Call::Start { width: 2 },
        Call::Pixel { target: OLIVE },
        Call::Pixel { target: TEAL },
        Call::Close {
            codes: 2,
            preview: 2,
        },
    ];
    let mut cells = littered(rt.alloc(), 3 * 4096)?;
    let record: Vec<Entry<Summed>> = run(rt.alloc(), &HAM, &mut cells, &calls)?;
    let Some(last) = record.as_slice().last() else {
        return Err(Fail::new("no answer"));
    };
    match &last.answer {
        Ok(Answer::Closed { cost, .. }) => {
            assert_eq!(rt; cost.error, 64);
            Ok(())
        },
        _ => Err(Fail::new("not closed")),
    }
}

// Half of a colour's number: what is odd in one level runs over into the next.
fn halved_number(colour: u16) -> u16 {
    colour / 2
}

#[test]
fn levels_are_halved_one_by_one(rt: HostRuntime) {
    let mut half_brite = HalfBrite { registers: [0; 32] };
    half_brite.registers[5] = 0xfa3;
    let mut preview = [0; 2];
    assert!(rt; show(&half_brite, &[5, 37], &mut preview).is_ok());
    assert_eq!(rt; preview, [0xfa3, 0x751]);
    assert_eq!(rt; halved_number(0xfa3), 0x7d1);
}

// Joins two pairs so that each half stops at the greatest number by itself.
fn join_halves(x: Pair, y: Pair) -> Pair {
    Pair {
        error: x.error.saturating_add(y.error),
        count: x.count.saturating_add(y.count),
    }
}

fn is_less(x: Pair, y: Pair) -> bool {
    x.at_most(y) && !y.at_most(x)
}

#[test]
fn joining_keeps_the_order(rt: HostRuntime) {
    let less = Pair {
        error: u32::MAX - 1,
        count: 5,
    };
    let more = Pair {
        error: u32::MAX,
        count: 0,
    };
    let one = Pair { error: 1, count: 0 };
    assert!(rt; is_less(less, more));
    assert!(rt; is_less(join_halves(more, one), join_halves(less, one)));
    assert!(rt; is_less(less.join(one), more.join(one)));
}
