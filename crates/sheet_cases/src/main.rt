// Marks the sheets that its arguments name, one after the other, and prints the answers under each
// name.
#![tactic(auto)]

use marking::mark;
use std::io::Write;
use std::{env, fs};

fn marked(rt: &HostRuntime, name: &str) -> anyhow::Result<()> {
    let heap = rt.alloc();
    let path = format!(in heap; "{name}.sheet")?;
    let sheet = fs::read(rt, path.as_str())?;
    let answers = mark(heap, sheet.as_slice())?;
    println!(rt; "== {name}")?;
    rt.stdout().write_all(answers.as_slice())?;
    Ok(())
}

fn run(rt: &HostRuntime) -> anyhow::Result<()> {
    for name in env::args(rt)?.skip(1) {
        marked(rt, name.as_str())?;
    }
    Ok(())
}

fn main(rt: HostRuntime) -> anyhow::Result<()> {
    run(&rt)
}
