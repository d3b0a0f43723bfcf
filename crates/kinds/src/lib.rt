// The kinds of lock that a set-up can ask for, and whole runs on a rack by its kind of lock, its number of stations and its start.
#![tactic(auto)]

ghost use Rattle.std.specs.Prelude.{◌≡◌};
ghost use Rattle.kinds.specs.Runs.{events_in, board_in};

use answers::View;
use fast::Fast;
use one_bit::OneBit;
use runs::events::Event;
use runs::run::Ran;

pub mod names;
pub mod set_up;

// A kind of lock that a set-up can ask for.
#[derive(Clone, Copy, PartialEq, Eq, Debug)]
pub enum LockKind {
    // Lamport's fast algorithm
    Fast,
    // Lamport's One-Bit algorithm
    OneBit,
}

// A rack with a lock of one of the kinds after some calls, with what came of each. The kinds are two and known, and a rack stands
// here without a box of its own.
#[derive(Drop)]
pub enum KindRan {
    OnFast(Ran<Fast>),
    OnOneBit(Ran<OneBit>),
}

impl KindRan {
    // What came of each call.
    pub fn events(&self) -> &[Event]
        ensures { result.now ≡ events_in self.now }
    {
        match self {
            KindRan::OnFast(ran) => ran.events.as_slice(),
            KindRan::OnOneBit(ran) => ran.events.as_slice(),
        }
    }

    // What the board shows after them.
    pub fn board(&self) -> View
        ensures { result ≡ board_in self.now }
    {
        match self {
            KindRan::OnFast(ran) => ran.rack.board(),
            KindRan::OnOneBit(ran) => ran.rack.board(),
        }
    }
}
