ghost use Rattle.std.specs.Prelude.{◌≡◌, Some};
ghost use Rattle.lock.specs.Numbers.{wrong_count_number};
ghost use Rattle.lock.specs.Words.{wrong_count_words};

use std::error::Error;
use std::fmt;

// The most stations of a lock.
pub const MOST_STATIONS: usize = 16;

// The refusal of a lock for a number of stations outside 1 to the most.
#[derive(Clone, Copy, PartialEq, Eq, Debug)]
pub struct WrongStationCount;

impl WrongStationCount {
    // The number by which the refusal is shown.
    pub fn number(self) -> u8
        ensures { result ≡ wrong_count_number }
    {
        1
    }
}

impl fmt::Display for WrongStationCount {
    ghost output = { λ _. Some wrong_count_words };

    fn fmt<W: fmt::Write>(&self, f: &mut fmt::Formatter<W>) -> fmt::Result {
        f.write_str("a rack has 1 to 16 stations")
    }
}

impl Error for WrongStationCount {}
