// What the program is asked to do.
use crate::busy::Busy;
use crate::work::{Crew, calls, slots, turns};
use fast::Fast;
use kinds::LockKind;
use kinds::names::NoSuchKind;
use lock::Lock;
use one_bit::OneBit;
use std::env::Args;
use std::error::Error;
use std::fmt;
use std::iter::Skip;
use std::str::FromStr;

// What is said to who asks in other words.
#[derive(Debug, Drop)]
struct Usage;

impl fmt::Display for Usage {
    fn fmt<W: fmt::Write>(&self, f: &mut fmt::Formatter<W>) -> fmt::Result {
        f.write_str("slots fast|one-bit N idle|contended|calls|turns-idle|turns-contended COUNT")
    }
}

impl Error for Usage {}

#[derive(Clone, Copy)]
enum Work {
    Slots,
    Calls,
    Turns,
}

#[derive(Clone, Copy)]
enum Workers {
    // a station in the middle, which has others on both sides
    One,
    All,
}

#[derive(Clone, Copy)]
struct Mode {
    work: Work,
    workers: Workers,
}

impl FromStr for Mode {
    type Err = Usage;

    fn from_str(word: &str) -> Result<Mode, Usage> {
        let (work, workers) = match word {
            "idle" => (Work::Slots, Workers::One),
            "contended" => (Work::Slots, Workers::All),
            "calls" => (Work::Calls, Workers::All),
            "turns-idle" => (Work::Turns, Workers::One),
            "turns-contended" => (Work::Turns, Workers::All),
            _ => return Err(Usage),
        };
        Ok(Mode { work, workers })
    }
}

#[derive(Clone, Copy)]
pub struct Plan {
    kind: LockKind,
    n: usize,
    mode: Mode,
    count: usize,
}

impl Plan {
    pub fn read(args: &mut Skip<Args>) -> anyhow::Result<Plan> {
        Ok(Plan {
            kind: word(args)?.parse().map_err(|_: NoSuchKind| Usage)?,
            n: word(args)?.parse()?,
            mode: word(args)?.parse()?,
            count: word(args)?.parse()?,
        })
    }

    fn crew(self) -> Crew {
        let middle = self.n / 2 + 1;
        let (first, last) = match self.mode.workers {
            Workers::One => (middle, middle),
            Workers::All => (1, self.n),
        };
        Crew {
            first,
            last,
            count: self.count,
        }
    }

    fn sum_over<L: Lock + Drop>(self, mut lock: L) -> anyhow::Result<u64> {
        let crew = self.crew();
        match self.mode.work {
            Work::Slots => Ok(slots(&mut Busy::set_up(lock)?, crew)),
            Work::Calls => Ok(calls(&mut Busy::set_up(lock)?, crew)),
            Work::Turns => Ok(turns(&mut lock, crew)),
        }
    }

    pub fn sum(self) -> anyhow::Result<u64> {
        match self.kind {
            LockKind::Fast => self.sum_over(Fast::new(self.n)?),
            LockKind::OneBit => self.sum_over(OneBit::new(self.n)?),
        }
    }
}

fn word(args: &mut Skip<Args>) -> Result<String, Usage> {
    args.next().ok_or(Usage)
}
