// What a lock is: the stage of each of its stations, the four functions that move them, and the laws that it owes.
#![tactic(auto)]

ghost use Rattle.std.specs.Prelude.{◌≡◌, Option};
ghost use Rattle.lock.specs.Stages.{asked, is_resting, is_moving, is_inside};
ghost use Rattle.lock.specs.Meaning.{Meaning, Lawful};

use crate::stage::Stage;

pub mod count;
pub mod in_time;
pub mod stage;

// A lock for 1 to 16 stations, numbered from 1. All that is known of it is the stage of each station.
// A function that finds its station in another stage, or a number that is no station's, alters nothing and says no.
pub trait Lock {
    // what the lock does, for the proof alone
    ghost meaning: { Meaning Self };

    // The station's stage, or nothing for a number that is no station's.
    fn stage(&self, station: usize) -> Option<Stage>
        ensures { result ≡ asked (meaning.stages self.now) station };

    // Takes a resting station to trying.
    fn begin(&mut self, station: usize) -> bool
        ensures left { self.new ≡ meaning.begun self.old station }
        ensures said { result ≡ is_resting (meaning.stages self.old) station };

    // One turn of a trying or a leaving station: one access.
    fn turn(&mut self, station: usize) -> bool
        ensures left { self.new ≡ meaning.turned self.old station }
        ensures said { result ≡ is_moving (meaning.stages self.old) station };

    // Takes a station from inside to leaving.
    fn end(&mut self, station: usize) -> bool
        ensures left { self.new ≡ meaning.ended self.old station }
        ensures said { result ≡ is_inside (meaning.stages self.old) station };

    // two stations are never inside; alone, a station gets in after a bounded number of turns, and it always gets out
    ghost lawful: { Lawful meaning };
}
