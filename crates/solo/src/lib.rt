// A lock for one station, the smallest that is lawful: its first turn takes it inside, and its first turn after its end to rest.
#![tactic(auto)]

ghost use Rattle.std.specs.Prelude.{◌≡◌, true, false};
ghost use Rattle.lock.specs.Fresh.{Fresh};
ghost use Rattle.solo.specs.Meaning.{solo_meaning, at_rest};
ghost use Rattle.solo.specs.Law;

use lock::Lock;
use lock::stage::Stage;

pub mod signs;
#[cfg(test)]
mod tests;

#[derive(Clone, Copy)]
pub struct Solo {
    only: Stage,
}

impl Solo {
    pub fn new() -> Solo
        ensures value { result ≡ at_rest }
        ensures fresh { Fresh solo_meaning 1 result }
    {
        Solo { only: Stage::Rest }
    }

    // Takes the only station from one stage to another, if it is asked of that station, and finds it at the first. Says whether it did.
    fn go(&mut self, station: usize, from: Stage, to: Stage) -> bool
        ensures goes { (station ≡ 1) × (self.old.only ≡ from) → (self.new ≡ record { only = to }) × (result ≡ true) }
        ensures stays { ((station ≡ 1) × (self.old.only ≡ from) → ⊥) → (self.new ≡ self.old) × (result ≡ false) }
    {
        let goes = station == 1 && self.only == from;
        if goes {
            self.only = to;
        }
        goes
    }
}

impl Lock for Solo {
    ghost meaning = { solo_meaning };

    ghost lawful = { Law.lawful };

    fn stage(&self, station: usize) -> Option<Stage> {
        (station == 1).then_some(self.only)
    }

    fn begin(&mut self, station: usize) -> bool {
        self.go(station, Stage::Rest, Stage::Trying)
    }

    fn turn(&mut self, station: usize) -> bool {
        self.go(station, Stage::Trying, Stage::Inside)
            || self.go(station, Stage::Leaving, Stage::Rest)
    }

    fn end(&mut self, station: usize) -> bool {
        self.go(station, Stage::Inside, Stage::Leaving)
    }
}
