ghost use Rattle.std.specs.Prelude.{◌≡◌};
ghost use Rattle.algorithm.specs.Flags.{all_down, flag_in, with_flag};

use lock::count::MOST_STATIONS;

// A flag for each station. That of station i has the index i - 1; a number outside 1 to the most has none.
#[derive(Clone, Copy)]
pub struct Flags {
    raised: [bool; MOST_STATIONS],
}

impl Flags {
    pub fn down() -> Flags
        ensures { result ≡ all_down }
    {
        Flags {
            raised: [false; MOST_STATIONS],
        }
    }

    // Whether a station's flag is raised; where there is none, it is not.
    pub fn is_raised(&self, station: usize) -> bool
        ensures { result ≡ flag_in self.now station }
    {
        if station == 0 {
            return false;
        }
        self.raised.get(station - 1).copied().unwrap_or(false)
    }

    // Raises or lowers a station's flag; where there is none, it does nothing.
    pub fn set(&mut self, station: usize, raised: bool)
        ensures { self.new ≡ with_flag self.old station raised }
    {
        if (1..=self.raised.len()).contains(&station) {
            self.raised[station - 1] = raised;
        }
    }
}
