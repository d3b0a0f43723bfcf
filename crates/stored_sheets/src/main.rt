// Answers stored sheets and compares the answers with those of a second program, stored beside them.
#![tactic(auto)]

use answering::answer::answer;
use std::fs;
use std::rt::Files;

const SHEETS: u32 = 335;

// Whether the sheet of this number is answered as it should be.
fn agrees<R: Files + AllocGlobal>(rt: &R, number: u32) -> anyhow::Result<bool> {
    let heap = rt.alloc();
    let sheet = fs::read(rt, format!(in heap; "sheets/{number}.sheet")?.as_str())?;
    let expected = fs::read(rt, format!(in heap; "sheets/{number}.answers")?.as_str())?;
    Ok(answer(heap, &sheet)? == expected)
}

fn main(rt: HostRuntime) -> anyhow::Result<()> {
    // A loop, since each sheet may fail to be read, and one that differs is told at once.
    let mut differ = 0u32;
    for number in 0..SHEETS {
        if !agrees(&rt, number)? {
            differ = differ.saturating_add(1);
            println!(rt; "sheet {number} differs")?;
        }
    }
    println!(rt; "{SHEETS} sheets, {differ} differ")?;
    Ok(())
}
