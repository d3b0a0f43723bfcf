ghost use Rattle.lock.specs.InTime.{LoneGetsIn, LeaverRests};

use crate::Lock;

// Of every lock: a lone trying station gets in, and a leaving station gets out, within the lock's numbers of turns.
pub fn lone_gets_in_and_leaver_rests<L: Lock>()
    ensures enters { LoneGetsIn L.meaning }
    ensures leaves { LeaverRests L.meaning }
{}
