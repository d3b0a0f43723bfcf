// One call told in a line: who, what, the access that it makes, and what came of it.
use crate::access::{Tells, tell_next};
use crate::words::{Numbered, tell_refusal};
use answers::{Answer, Served};
use feed::job::Job;
use rack::calls::Rack;
use sheet::line::Call;
use std::fmt;

// What a slot did, in words.
#[derive(Clone, Copy)]
struct Words(Served);

impl fmt::Display for Words {
    fn fmt<W: fmt::Write>(&self, f: &mut fmt::Formatter<W>) -> fmt::Result {
        match self.0 {
            Served::StillTrying => f.write_str("still trying"),
            Served::NowInside => f.write_str("now inside"),
            Served::Working => f.write_str("its job goes on"),
            Served::Ended(verdict) => write!(f, "its job ends: {}", Numbered(verdict)),
            Served::StillLeaving => f.write_str("still leaving"),
            Served::NowResting => f.write_str("now at rest"),
        }
    }
}

fn tell_order<L: Tells>(
    out: &mut impl fmt::Write,
    rack: &mut Rack<L>,
    station: usize,
    job: Job,
) -> fmt::Result {
    write!(out, "station {station} is ordered to {job}: ")?;
    match rack.order(station, job) {
        Ok(()) => out.write_str("now trying (0)\n"),
        Err(refusal) => tell_refusal(out, refusal),
    }
}

// The access is told before the slot makes it.
fn tell_slot<L: Tells>(
    out: &mut impl fmt::Write,
    rack: &mut Rack<L>,
    station: usize,
) -> fmt::Result {
    write!(out, "station {station} makes a slot: ")?;
    tell_next(out, rack, station)?;
    match rack.slot(station) {
        Ok(served) => writeln!(out, "{} ({})", Words(served), served.number()),
        Err(refusal) => tell_refusal(out, refusal),
    }
}

// Makes the call of a line, and tells it.
pub fn tell_call<L: Tells>(
    out: &mut impl fmt::Write,
    rack: &mut Rack<L>,
    line: usize,
    call: Call,
) -> fmt::Result {
    write!(out, "line {line}: ")?;
    match call {
        Call::Order(station, job) => tell_order(out, rack, station, job),
        Call::Slot(station) => tell_slot(out, rack, station),
    }
}
