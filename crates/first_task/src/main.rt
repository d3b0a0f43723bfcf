// One task from beginning to end, told in words: a trim, slot by slot, that another station takes back, and a signature.
#![tactic(auto)]

use answers::{Served, View};
use feed::job::{Job, Verdict};
use one_bit::OneBit;
use rack::calls::Rack;
use std::fmt;

const STATIONS: usize = 4;

const START: u32 = 199_999;

const TRIMMER: usize = 3;

const FOREMAN: usize = 1;

const LABORATORY: usize = 2;

// More slots than any job of a lone station takes here.
const ENOUGH: u8 = 30;

// What a slot did, in words.
#[derive(Clone, Copy)]
struct Words(Served);

impl fmt::Display for Words {
    fn fmt<W: fmt::Write>(&self, f: &mut fmt::Formatter<W>) -> fmt::Result {
        match self.0 {
            Served::StillTrying => f.write_str("still trying"),
            Served::NowInside => f.write_str("inside"),
            Served::Working => f.write_str("one access of the job"),
            Served::Ended(Verdict::Done) => f.write_str("the job is done"),
            Served::Ended(verdict) => write!(f, "the job ends: {verdict}"),
            Served::StillLeaving => f.write_str("still leaving"),
            Served::NowResting => f.write_str("at rest"),
        }
    }
}

// Orders the job and serves the station until it rests.
fn carry_out(
    rt: &impl Print,
    rack: &mut Rack<OneBit>,
    station: usize,
    job: Job,
) -> anyhow::Result<()> {
    rack.order(station, job)?;
    for slot in 1..ENOUGH {
        let served = rack.slot(station)?;
        println!(rt; "  slot {slot}: {}", Words(served))?;
        if served == Served::NowResting {
            break;
        }
    }
    Ok(())
}

fn show(rt: &impl Print, rack: &Rack<OneBit>) -> anyhow::Result<()> {
    let View {
        setpoint,
        depth,
        ..
    } = rack.board();
    println!(rt; "The setpoint is {setpoint} kg/h, the depth {depth}.")?;
    Ok(())
}

fn run(rt: &impl Print) -> anyhow::Result<()> {
    println!(rt; "A rack of {STATIONS} stations with a one-bit lock starts at {START} kg/h.")?;
    let mut rack = Rack::set_up(OneBit::new(STATIONS)?, START)?;
    println!(rt; "Station {TRIMMER} trims by 33 permille:")?;
    carry_out(rt, &mut rack, TRIMMER, Job::Trim(33))?;
    show(rt, &rack)?;
    println!(rt; "Station {FOREMAN} takes it back:")?;
    carry_out(rt, &mut rack, FOREMAN, Job::Undo)?;
    show(rt, &rack)?;
    println!(rt; "The laboratory, station {LABORATORY}, signs {START} kg/h:")?;
    carry_out(rt, &mut rack, LABORATORY, Job::Sign(START as i32))?;
    show(rt, &rack)?;
    println!(rt; "Station {} signed.", rack.board().signer)?;
    Ok(())
}

fn main(rt: HostRuntime) -> anyhow::Result<()> {
    run(&rt)
}
