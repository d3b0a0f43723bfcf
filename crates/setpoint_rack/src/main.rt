// Reads a sheet from standard input, and writes the answers to standard output.
#![tactic(auto)]

use answering::answer::answer;
use input::read_sheet;
use std::io::Write;

fn main(rt: HostRuntime) -> anyhow::Result<()> {
    let text = read_sheet(rt.alloc(), rt.stdin())?;
    let output = answer(rt.alloc(), &text)?;
    rt.stdout().write_all(&output)?;
    Ok(())
}
