// Draws the plate files that the arguments name: each as `plate` prints it, and then as `encode_plate` does.
#![tactic(auto)]

#[cfg(test)]
mod full_plate;

use plate_output::{Bounds, SMALL, WHOLE, print_file, read_input};
use std::env;
use std::fs::File;

fn print_plate(rt: &HostRuntime, path: &str, bounds: Bounds) -> anyhow::Result<()> {
    let input = read_input(rt.alloc(), File::open(rt, path)?, bounds.limit)?;
    print_file(rt, &input, bounds)
}

fn run(rt: &HostRuntime) -> anyhow::Result<()> {
    // The first word is the program's own name.
    for path in env::args(rt)?.skip(1) {
        println!(rt; "{path} by plate")?;
        print_plate(rt, &path, SMALL)?;
        println!(rt; "{path} by encode_plate")?;
        print_plate(rt, &path, WHOLE)?;
    }
    Ok(())
}

fn main(rt: HostRuntime) -> anyhow::Result<()> {
    run(&rt)
}
