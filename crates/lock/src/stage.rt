ghost use Rattle.std.specs.Prelude.{◌≡◌, Some};
ghost use Rattle.lock.specs.Numbers.{stage_number};
ghost use Rattle.lock.specs.Words.{stage_words};

use std::fmt;

// How far a station has come: at rest, trying to get in, inside, or leaving. A stage is shown by its number.
#[derive(Clone, Copy, PartialEq, Eq, Debug)]
pub enum Stage {
    Rest = 0,
    Trying = 1,
    Inside = 2,
    Leaving = 3,
}

impl Stage {
    pub fn number(self) -> u8
        ensures { result ≡ stage_number self }
    {
        self as u8
    }
}

impl fmt::Display for Stage {
    ghost output = { λ stage. Some (stage_words stage) };

    fn fmt<W: fmt::Write>(&self, f: &mut fmt::Formatter<W>) -> fmt::Result {
        f.write_str(match self {
            Stage::Rest => "at rest",
            Stage::Trying => "trying",
            Stage::Inside => "inside",
            Stage::Leaving => "leaving",
        })
    }
}
