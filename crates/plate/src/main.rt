// Draws the plate file that stands on standard input, within a small machine's bounds.
#![tactic(auto)]

use plate_output::{SMALL, print_file, read_input};

fn run(rt: &HostRuntime) -> anyhow::Result<()> {
    let input = read_input(rt.alloc(), rt.stdin(), SMALL.limit)?;
    print_file(rt, &input, SMALL)
}

fn main(rt: HostRuntime) -> anyhow::Result<()> {
    run(&rt)
}
