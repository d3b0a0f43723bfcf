// Makes slots of a rack, or turns of a lock alone, and prints a checksum of what they answered: work to be measured,
// and a number by which a program in another language is seen to have done the same.
#![tactic(auto)]

use crate::plan::Plan;
use std::env;

mod busy;
mod plan;
mod work;

fn main(rt: HostRuntime) -> anyhow::Result<()> {
    let mut args = env::args(&rt)?.skip(1);
    let sum = Plan::read(&mut args)?.sum()?;
    println!(rt; "{sum}")?;
    Ok(())
}
