// Reads a sheet from standard input, and prints the answer to each of its lines.
#![tactic(auto)]

use marking::mark;
use std::io::{Read, Write};

// One byte more than the longest sheet, which tells a sheet that is too long.
const ENOUGH: u64 = 32_769;

fn run(rt: &HostRuntime) -> anyhow::Result<()> {
    let heap = rt.alloc();
    let mut sheet = Vec::new(heap);
    rt.stdin().take(ENOUGH).read_to_end(&mut sheet)?;
    let answers = mark(heap, sheet.as_slice())?;
    rt.stdout().write_all(answers.as_slice())?;
    Ok(())
}

fn main(rt: HostRuntime) -> anyhow::Result<()> {
    run(&rt)
}
