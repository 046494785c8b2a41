// Draws the plate file that the first argument names, or the one on standard input.
#![tactic(auto)]

use plate_output::{WHOLE, print_file, read_input};
use std::fs::File;
use std::{env, io};

fn read_plate(rt: &HostRuntime) -> io::Result<Vec<u8>> {
    // The first word is the program's own name.
    match env::args(rt)?.nth(1) {
        Some(path) => read_input(rt.alloc(), File::open(rt, path)?, WHOLE.limit),
        None => read_input(rt.alloc(), rt.stdin(), WHOLE.limit),
    }
}

fn run(rt: &HostRuntime) -> anyhow::Result<()> {
    let input = read_plate(rt)?;
    print_file(rt, &input, WHOLE)
}

fn main(rt: HostRuntime) -> anyhow::Result<()> {
    run(&rt)
}
