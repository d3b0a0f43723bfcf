ghost use Rattle.std.specs.Prelude.{◌≡◌};
ghost use Rattle.fast.specs.Turns.{scan_after};
ghost use Rattle.fast.specs.Plan.{fast_plan};
ghost use Rattle.fast.specs.Meaning.{fast_claims};
ghost use Rattle.fast.specs.Law;
ghost use Rattle.fast.specs.Steps.{steps};
ghost use Rattle.fast.specs.Ways.{ways};

use crate::register::Register;
use crate::shared::Shared;
use algorithm::Algorithm;
use algorithm::flags::Flags;
use bus::Access;
use lock::stage::Stage;

// How far a station has come.
#[derive(Clone, Copy, PartialEq, Eq, Debug)]
pub enum Place {
    // at rest
    Idle,
    // raises its flag
    Raise,
    // writes its number to X
    Announce,
    // looks whether Y is free
    Glance,
    // has found Y taken, and lowers its flag
    Retreat,
    // waits for Y to be free, to start again
    Await,
    // has found Y free, and writes its number to Y
    Claim,
    // enters if X still has its number
    Confirm,
    // has found another number in X, and lowers its flag
    Lower,
    // waits for the flags to be lowered, in order from that of station 1
    Scan(usize),
    // enters if Y still has its number
    Recheck,
    // waits for Y to be free, to start again
    Retry,
    // is inside
    Within,
    // frees Y, to leave
    Release,
    // lowers its flag, to leave
    Clear,
}

// Where a station goes among n that has found the flag of j lowered: to the next flag, or on from the last.
fn scan_after(n: usize, j: usize) -> Place
    ensures { result ≡ scan_after n j }
{
    if j < n {
        Place::Scan(j + 1)
    } else {
        Place::Recheck
    }
}

impl Algorithm for Place {
    type Registers = Shared;

    ghost plan = { fast_plan };

    ghost claims = { fast_claims };

    ghost coherent = { Law.coherent };

    ghost lawful = { Law.lawful steps ways };

    ghost starts = { Law.starts };

    fn idle() -> Self {
        Self::Idle
    }

    fn entry() -> Self {
        Self::Raise
    }

    fn exit() -> Self {
        Self::Release
    }

    fn registers() -> Shared {
        Shared {
            x: 0,
            y: 0,
            flags: Flags::down(),
        }
    }

    fn stage(self) -> Stage {
        match self {
            Place::Idle => Stage::Rest,
            Place::Within => Stage::Inside,
            Place::Release | Place::Clear => Stage::Leaving,
            _ => Stage::Trying,
        }
    }

    fn access(self, station: usize) -> Option<Access<Register, usize>> {
        match self {
            Place::Idle | Place::Within => None,
            Place::Raise => Some(Access::Write(Register::Flag(station), 1)),
            Place::Announce => Some(Access::Write(Register::X, station)),
            Place::Glance | Place::Await | Place::Recheck | Place::Retry => Some(Access::Read(
                Register::Y,
            )),
            Place::Claim => Some(Access::Write(Register::Y, station)),
            Place::Confirm => Some(Access::Read(Register::X)),
            Place::Scan(j) => Some(Access::Read(Register::Flag(j))),
            Place::Retreat | Place::Lower | Place::Clear => Some(Access::Write(
                Register::Flag(station),
                0,
            )),
            Place::Release => Some(Access::Write(Register::Y, 0)),
        }
    }

    fn turn(&mut self, n: usize, station: usize, value: usize) {
        *self = match (*self, value) {
            (Place::Idle, _) => Place::Idle,
            (Place::Raise, _) => Place::Announce,
            (Place::Announce, _) => Place::Glance,
            (Place::Glance, 0) => Place::Claim,
            (Place::Glance, _) => Place::Retreat,
            (Place::Retreat, _) => Place::Await,
            (Place::Await, 0) => Place::Raise,
            (Place::Await, _) => Place::Await,
            (Place::Claim, _) => Place::Confirm,
            (Place::Confirm, last) if last == station => Place::Within,
            (Place::Confirm, _) => Place::Lower,
            (Place::Lower, _) => Place::Scan(1),
            (Place::Scan(j), 0) => scan_after(n, j),
            (Place::Scan(j), _) => Place::Scan(j),
            (Place::Recheck, owner) if owner == station => Place::Within,
            (Place::Recheck, _) => Place::Retry,
            (Place::Retry, 0) => Place::Raise,
            (Place::Retry, _) => Place::Retry,
            (Place::Within, _) => Place::Within,
            (Place::Release, _) => Place::Clear,
            (Place::Clear, _) => Place::Idle,
        };
    }
}
