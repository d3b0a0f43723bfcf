ghost use Rattle.std.specs.Prelude.{◌≡◌, IfOk, OnOk};
ghost use Rattle.kinds.specs.Runs.{set_up_refusal, MadeRun, KindRun};
ghost use Rattle.kinds.specs.Promise.{MadePromise, MadeThroughout, KindPromise, KindThroughout};

use crate::{KindRan, LockKind};
use answers::Refusal;
use fast::Fast;
use feed::task::CEILING;
use lock::Lock;
use lock::count::{MOST_STATIONS, WrongStationCount};
use one_bit::OneBit;
use runs::events::Call;
use runs::run::{Fault, Ran, run};
use std::alloc::Global;

// What a rack is set up with.
#[derive(Clone, Copy, PartialEq, Eq, Debug)]
pub struct SetUp {
    pub kind: LockKind,
    pub stations: usize,
    pub start: u32,
}

impl SetUp {
    // Why the set-up is refused, if it is.
    pub fn refusal(self) -> Option<Refusal>
        ensures { result ≡ set_up_refusal self.stations self.start }
    {
        if !(1..=MOST_STATIONS).contains(&self.stations) {
            Some(Refusal::StationCount)
        } else if self.start > CEILING as u32 {
            Some(Refusal::Start)
        } else {
            None
        }
    }

    // Sets up a rack and makes the calls in their order.
    // What the works rely on is `keeps`: the promise over whole runs, with no premise, and with what a lone order costs.
    pub fn run(self, heap: Global, calls: &[Call]) -> Result<KindRan, Fault>
        ensures keeps { IfOk result (λ d. KindPromise self.stations self.start d) }
        ensures throughout { OnOk result (KindThroughout self.kind self.stations self.start calls.now) }
        ensures does { KindRun self.kind self.stations self.start calls.now result }
    {
        match self.kind {
            LockKind::Fast => {
                let lock = Fast::new(self.stations);
                run_if_made(heap, lock, self.start, calls).map(KindRan::OnFast)
            }
            LockKind::OneBit => {
                let lock = OneBit::new(self.stations);
                run_if_made(heap, lock, self.start, calls).map(KindRan::OnOneBit)
            }
        }
    }
}

// A run on a rack with a lock that was made, if it was.
fn run_if_made<L: Lock + Drop>(
    heap: Global,
    lock: Result<L, WrongStationCount>,
    start: u32,
    calls: &[Call],
) -> Result<Ran<L>, Fault>
    ensures keeps { IfOk result (λ d. MadePromise L.meaning lock start d.events.items d.rack) }
    ensures throughout { OnOk result (MadeThroughout L.meaning lock start calls.now) }
    ensures does { MadeRun L.meaning lock start calls.now result }
{
    let lock = lock.map_err(Refusal::from)?;
    run(heap, lock, start, calls)
}
