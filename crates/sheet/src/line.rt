ghost use Rattle.std.specs.Prelude.{◌≡◌};
ghost use Rattle.sheet.specs.Calls.{to_call};

use feed::job::Job;
use runs::events;

// What a line after the first says: a job for a station, or a slot of one.
#[derive(Clone, Copy, PartialEq, Eq, Debug)]
pub enum Call {
    Order(usize, Job),
    Slot(usize),
}

// The call on a rack that a line asks for.
impl From<Call> for events::Call {
    ghost from_gives = { λ line call. call ≡ to_call line };

    fn from(line: Call) -> events::Call {
        match line {
            Call::Order(station, job) => events::Call::Order(station, job),
            Call::Slot(station) => events::Call::Slot(station),
        }
    }
}
