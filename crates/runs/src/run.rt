ghost use Rattle.std.specs.Prelude.{◌≡◌, IfOk, Some};
ghost use Rattle.rack.specs.Calls.{fresh_rack};
ghost use Rattle.runs.specs.declared.run.Fault.TheVariants.{Refused, Memory};
ghost use Rattle.runs.specs.Events.{event, after, events as events_of, ran};
ghost use Rattle.runs.specs.Promise.{Ready, Promise, Throughout};
ghost use Rattle.runs.specs.Refused.{SetUpRefused};
ghost use Rattle.runs.specs.Words.{fault_words};

use crate::events::{Call, Event};
use answers::Refusal;
use lock::Lock;
use rack::calls::Rack;
use std::alloc::{AllocError, AllocFailed, Global};
use std::error::Error;
use std::fmt;

// Why a run comes to nothing: its set-up was sent back, or there is not enough memory.
#[derive(Clone, Copy, PartialEq, Eq, Debug)]
pub enum Fault {
    Refused(Refusal),
    Memory,
}

impl From<Refusal> for Fault {
    ghost from_gives = { λ refusal fault. fault ≡ Refused refusal };

    fn from(refusal: Refusal) -> Fault {
        Self::Refused(refusal)
    }
}

impl<T: Drop> From<AllocFailed<T>> for Fault {
    ghost from_gives = { λ _ fault. fault ≡ Memory };

    fn from(_failed: AllocFailed<T>) -> Fault {
        Fault::Memory
    }
}

impl From<AllocError> for Fault {
    ghost from_gives = { λ _ fault. fault ≡ Memory };

    fn from(_error: AllocError) -> Fault {
        Self::Memory
    }
}

impl fmt::Display for Fault {
    ghost output = { λ fault. Some (fault_words fault) };

    fn fmt<W: fmt::Write>(&self, f: &mut fmt::Formatter<W>) -> fmt::Result {
        match self {
            Fault::Refused(refusal) => write!(f, "{refusal}"),
            Fault::Memory => f.write_str("there is not enough memory"),
        }
    }
}

impl Error for Fault {}

// A rack after some calls, with what came of each.
#[derive(Drop)]
pub struct Ran<L> {
    pub rack: Rack<L>,
    pub events: Vec<Event>,
}

// Makes one call, and tells what came of it.
pub fn make<L: Lock>(rack: &mut Rack<L>, call: Call) -> Event
    ensures left { rack.new ≡ after L.meaning rack.old call }
    ensures said { result ≡ event L.meaning rack.old call }
{
    match call {
        Call::Order(station, job) => Event::Ordered(station, job, rack.order(station, job)),
        Call::Slot(station) => Event::Slotted(station, rack.slot(station)),
        Call::Look(station) => Event::Looked(station, rack.look(station)),
        Call::Show => Event::Shown(rack.board()),
    }
}

// Sets up a rack with a lock of its own and makes the calls in their order, each on the rack as the one before left it.
// What the works rely on is `keeps`: with a lock that is sound and at rest, the promise holds of all that came of the calls;
// `throughout` says the same of every moment on the way. `does` only says that the calls were made.
pub fn run<L: Lock + Drop>(
    heap: Global,
    lock: L,
    start: u32,
    calls: &[Call],
) -> Result<Ran<L>, Fault>
    ensures keeps { IfOk result (λ d. Ready L.meaning lock → Promise L.meaning lock start d.events.items d.rack) }
    ensures throughout { IfOk result (λ d. Ready L.meaning lock → Throughout L.meaning lock start calls.now) }
    ensures does { IfOk result (λ d. (d.rack ≡ ran L.meaning (fresh_rack lock start) calls.now) × (d.events.items ≡ events_of L.meaning (fresh_rack lock start) calls.now)) }
    ensures refuses { SetUpRefused start result }
{
    let mut rack = Rack::set_up(lock, start)?;
    let mut events = Vec::new(heap);
    // A loop, since `collect` says nothing of the rack that its closure would alter.
    for call in calls {
        events.push(make(&mut rack, *call))?;
    }
    Ok(Ran { rack, events })
}
