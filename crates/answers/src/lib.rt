// What the calls on a rack answer, and the number by which each answer is shown.
#![tactic(auto)]

ghost use Rattle.std.specs.Prelude.{◌≡◌, ℕ, Some};
ghost use Rattle.answers.specs.Numbers.{refusal_number, served_number, answer_number, last_number, inside_number};
ghost use Rattle.answers.specs.Words.{refusal_words};
ghost use Rattle.answers.specs.declared.Refusal.TheVariants.{StationCount};

use feed::job::Verdict;
use lock::count::WrongStationCount;
use lock::stage::Stage;
use std::error::Error;
use std::fmt;

// What a set-up, an order or a slot answers. An answer is shown by its number, which is read with its call.
pub trait Answer {
    ghost number_of: { Self → ℕ };

    fn number(&self) -> u8
        ensures { result ≡ number_of self.now };
}

// A set-up or an order that is accepted says no more than that.
impl Answer for () {
    ghost number_of = { λ _. 0 };

    fn number(&self) -> u8 {
        0
    }
}

// An accepted call has the number of what it says, and a refused one that of its refusal.
impl<T: Answer> Answer for Result<T, Refusal> {
    ghost number_of = { answer_number T.number_of };

    fn number(&self) -> u8 {
        match self {
            Ok(answer) => answer.number(),
            Err(refusal) => refusal.number(),
        }
    }
}

// Why a call is sent back. A refusal is shown by its number.
#[derive(Clone, Copy, PartialEq, Eq, Debug)]
pub enum Refusal {
    // a set-up for a number of stations outside 1 to 16
    StationCount = 1,
    // a set-up with a start above the ceiling
    Start = 2,
    // a number that is no station's
    StationNumber = 3,
    // a trim of 0, or outside -200 to 200 permille
    TrimValue = 4,
    // a signature for a value outside 0 to the ceiling
    SignValue = 5,
    // an order for a station that is not at rest
    NotResting = 6,
    // a slot for a station at rest
    Resting = 7,
}

impl Answer for Refusal {
    ghost number_of = { refusal_number };

    fn number(&self) -> u8 {
        *self as u8
    }
}

impl fmt::Display for Refusal {
    ghost output = { λ refusal. Some (refusal_words refusal) };

    fn fmt<W: fmt::Write>(&self, f: &mut fmt::Formatter<W>) -> fmt::Result {
        f.write_str(match self {
            Refusal::StationCount => return write!(f, "{WrongStationCount}"),
            Refusal::Start => "a start is at most 400000 kg/h",
            Refusal::StationNumber => "there is no such station",
            Refusal::TrimValue => "a trim is -200 to 200 permille, and not 0",
            Refusal::SignValue => "a signature is for 0 to 400000 kg/h",
            Refusal::NotResting => "the station is not at rest",
            Refusal::Resting => "the station is at rest",
        })
    }
}

impl Error for Refusal {}

impl From<WrongStationCount> for Refusal {
    ghost from_gives = { λ _ r. r ≡ StationCount };

    fn from(_count: WrongStationCount) -> Refusal {
        Self::StationCount
    }
}

// What a slot did.
#[derive(Clone, Copy, PartialEq, Eq, Debug)]
pub enum Served {
    StillTrying,
    NowInside,
    // one access of the job, which goes on
    Working,
    // the last access of the job
    Ended(Verdict),
    StillLeaving,
    NowResting,
}

impl Answer for Served {
    ghost number_of = { served_number };

    // A match and no cast, since one of the answers has a verdict.
    fn number(&self) -> u8 {
        match self {
            Served::StillTrying => 10,
            Served::NowInside => 11,
            Served::Working => 12,
            Served::StillLeaving => 13,
            Served::NowResting => 14,
            Served::Ended(verdict) => 20 + verdict.number(),
        }
    }
}

// What a look at a station shows: its stage, its accepted slots since its last order, and its last verdict if it has one.
#[derive(Clone, Copy, PartialEq, Eq, Debug)]
pub struct Seen {
    pub stage: Stage,
    pub count: u16,
    pub last: Option<Verdict>,
}

impl Seen {
    // The number of the last verdict, 0 before the first.
    pub fn last_number(self) -> u8
        ensures { result ≡ last_number self.last }
    {
        self.last.map_or(0, Verdict::number)
    }
}

// What the board shows: three registers, and the station inside if there is one, whose job may be half done.
#[derive(Clone, Copy, PartialEq, Eq, Debug)]
pub struct View {
    pub setpoint: i32,
    pub depth: i32,
    pub signer: i32,
    pub inside: Option<usize>,
}

impl View {
    // The number of the station inside, 0 if there is none.
    pub fn inside_number(self) -> usize
        ensures { result ≡ inside_number self.inside }
    {
        self.inside.unwrap_or(0)
    }
}
