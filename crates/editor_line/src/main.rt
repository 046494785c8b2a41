// An editor's line of two wanted colours: what the nearest colours show and cost, what other codes show and cost, two code
// lines that are refused, and the cheapest line, found by the calls.
#![tactic(auto)]

#[cfg(test)]
mod by_calls;
mod cheapest;
mod costs;
mod nearest;
mod text;

use cheapest::{FoundLine, cheapest_line};
use costs::costs_of_line;
use display::{DisplayMachine, Fill, Ham};
use lines::show;
use nearest::nearest_line;
use one_line::{DrawError, Figures};
use std::io;
use text::{codes_text, preview_text};

const WANTED: [u8; 6] = [136, 119, 0, 0, 119, 119];

fn print_wanted(rt: &HostRuntime, targets: &[u8]) -> io::Result<()> {
    let (whole, _) = targets.as_chunks::<3>();
    for [red, green, blue] in whole {
        println!(rt; "wanted {red} {green} {blue}")?;
    }
    Ok(())
}

fn print_costs<M: DisplayMachine>(
    rt: &HostRuntime,
    machine: &M,
    codes: &[u8],
    targets: &[u8],
) -> io::Result<()> {
    match costs_of_line(machine, codes, targets) {
        Ok(costs) => println!(rt; "{costs}"),
        Err(fault) => println!(rt; "{fault}"),
    }
}

// The codes of a line, its preview and its costs; or why it is refused.
fn print_line<M: DisplayMachine>(
    rt: &HostRuntime,
    machine: &M,
    codes: &[u8],
    targets: &[u8],
) -> io::Result<()> {
    println!(rt; "{}", codes_text(rt.alloc(), codes)?)?;
    let mut preview = vec![in rt.alloc(); 0u16; codes.len()]?;
    if let Err(fault) = show(machine, codes, &mut preview) {
        return println!(rt; "{fault}");
    }
    println!(rt; "{}", preview_text(rt.alloc(), &preview)?)?;
    print_costs(rt, machine, codes, targets)
}

// The codes of a line, its preview and its cost, and what its plate came to.
fn print_found(rt: &HostRuntime, found: &FoundLine) -> io::Result<()> {
    println!(rt; "{}", codes_text(rt.alloc(), &found.codes)?)?;
    println!(rt; "{}", preview_text(rt.alloc(), &found.preview)?)?;
    let Figures { cost, report } = found.figures;
    println!(rt; "cost {cost}")?;
    println!(rt; "lines {} total {}", report.lines, report.total)?;
    println!(rt;
        "no legal line of {} pixels costs less by these targets",
        found.codes.len()
    )
}

// The cheapest line by the calls; or why a call was refused.
fn print_cheapest<M: DisplayMachine>(
    rt: &HostRuntime,
    machine: &M,
    targets: &[u8],
) -> io::Result<()> {
    match cheapest_line(rt.alloc(), machine, targets) {
        Ok(found) => print_found(rt, &found),
        Err(DrawError::Refused(fault)) => println!(rt; "{fault}"),
        Err(DrawError::NoMemory(lack)) => Err(lack.into()),
    }
}

fn print_all(rt: &HostRuntime) -> io::Result<()> {
    let ham = Ham { registers: [0; 16] };
    println!(rt; "HAM, all registers 000")?;
    print_wanted(rt, &WANTED)?;
    println!(rt; "\nthe nearest colour, pixel by pixel")?;
    let codes = nearest_line(rt.alloc(), &ham, &WANTED)?;
    print_line(rt, &ham, &codes, &WANTED)?;
    println!(rt; "\ngreen first, then blue")?;
    print_line(rt, &ham, &[55, 23], &WANTED)?;
    println!(rt; "\na code that HAM does not have")?;
    print_line(rt, &ham, &[55, 64], &WANTED)?;
    println!(rt; "\nfill mode, a colour repeated at the first pixel")?;
    print_line(rt, &Fill { entries: [0; 16] }, &[0, 1], &WANTED)?;
    println!(rt; "\nthe cheapest line by the calls")?;
    print_cheapest(rt, &ham, &WANTED)
}

fn main(rt: HostRuntime) -> io::Result<()> {
    print_all(&rt)
}
