ghost use Rattle.std.specs.Prelude.{◌≡◌};
ghost use Rattle.one_bit.specs.Turns.{lower_after, higher_after};
ghost use Rattle.one_bit.specs.Plan.{one_bit_plan};
ghost use Rattle.one_bit.specs.Meaning.{one_bit_claims};
ghost use Rattle.one_bit.specs.Law;
ghost use Rattle.one_bit.specs.Steps.{steps};

use crate::register::Register;
use crate::shared::Shared;
use algorithm::Algorithm;
use algorithm::flags::Flags;
use bus::Access;
use lock::stage::Stage;

// How far a station has come. A place that has to do with another station's flag keeps that station's number.
#[derive(Clone, Copy, PartialEq, Eq, Debug)]
pub enum Place {
    // at rest
    Idle,
    // raises its flag
    Raise,
    // looks at the flags below its own, in order
    CheckLow(usize),
    // has seen that flag raised, and lowers its own
    Yield(usize),
    // waits for that flag to be lowered
    Await(usize),
    // waits for the flags above its own to be lowered, in order
    CheckHigh(usize),
    // is inside
    Within,
    // lowers its flag, to leave
    Lower,
}

// Where station `station` goes that is done with the flag of j, below its own: to the next one below its own, or on.
fn lower_after(n: usize, station: usize, j: usize) -> Place
    ensures { result ≡ lower_after n station j }
{
    match j.checked_add(1) {
        Some(next) if next < station => Place::CheckLow(next),
        _ => higher_after(n, station),
    }
}

// Where a station goes that is done with the flags up to that of j, not below its own: to the next one, or inside.
fn higher_after(n: usize, j: usize) -> Place
    ensures { result ≡ higher_after n j }
{
    if j < n {
        Place::CheckHigh(j + 1)
    } else {
        Place::Within
    }
}

impl Algorithm for Place {
    type Registers = Shared;

    ghost plan = { one_bit_plan };

    ghost claims = { one_bit_claims };

    ghost coherent = { Law.coherent };

    ghost lawful = { Law.lawful steps };

    ghost starts = { Law.starts };

    fn idle() -> Self {
        Self::Idle
    }

    fn entry() -> Self {
        Self::Raise
    }

    fn exit() -> Self {
        Self::Lower
    }

    fn registers() -> Shared {
        Shared {
            flags: Flags::down(),
        }
    }

    fn stage(self) -> Stage {
        match self {
            Place::Idle => Stage::Rest,
            Place::Raise
            | Place::CheckLow(_)
            | Place::Yield(_)
            | Place::Await(_)
            | Place::CheckHigh(_) => Stage::Trying,
            Place::Within => Stage::Inside,
            Place::Lower => Stage::Leaving,
        }
    }

    fn access(self, station: usize) -> Option<Access<Register, bool>> {
        match self {
            Place::Idle | Place::Within => None,
            Place::Raise => Some(Access::Write(Register::Flag(station), true)),
            Place::CheckLow(j) | Place::Await(j) | Place::CheckHigh(j) => Some(Access::Read(
                Register::Flag(j),
            )),
            Place::Yield(_) | Place::Lower => Some(Access::Write(Register::Flag(station), false)),
        }
    }

    fn turn(&mut self, n: usize, station: usize, value: bool) {
        *self = match (*self, value) {
            (Place::Idle, _) => Place::Idle,
            (Place::Raise, _) => lower_after(n, station, 0),
            (Place::CheckLow(j), true) => Place::Yield(j),
            (Place::CheckLow(j), false) => lower_after(n, station, j),
            (Place::Yield(j), _) => Place::Await(j),
            (Place::Await(j), true) => Place::Await(j),
            (Place::Await(_), false) => Place::Raise,
            (Place::CheckHigh(j), true) => Place::CheckHigh(j),
            (Place::CheckHigh(j), false) => higher_after(n, j),
            (Place::Within, _) => Place::Within,
            (Place::Lower, _) => Place::Idle,
        };
    }
}
