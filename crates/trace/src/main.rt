// Reads a sheet from standard input, and tells for people what happened: each call in words, and the rack at the end.
#![tactic(auto)]

use crate::whole::tell_sheet;
use input::read_sheet;

mod access;
mod picture;
mod telling;
mod whole;
mod words;
mod wrong;

fn main(rt: HostRuntime) -> anyhow::Result<()> {
    let heap = rt.alloc();
    let text = read_sheet(heap, rt.stdin())?;
    let mut out = String::new(heap);
    tell_sheet(&mut out, heap, &text)?;
    rt.print(out.as_str())?;
    Ok(())
}
