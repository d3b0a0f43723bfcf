// Who works, how often, and at what.
use crate::busy::Busy;
use lock::Lock;
use lock::stage::Stage;
use std::ops::RangeInclusive;

// The stations that work, from the first to the last, and the number of times that one of them has its turn.
#[derive(Clone, Copy)]
pub struct Crew {
    pub first: usize,
    pub last: usize,
    pub count: usize,
}

impl Crew {
    fn stations(self) -> RangeInclusive<usize> {
        self.first..=self.last
    }

    fn after(self, station: usize) -> usize {
        if station < self.last {
            station + 1
        } else {
            self.first
        }
    }

    // The stations have their turns in order, again and again. What one turn adds to the sum is told by `turn`.
    // This is a loop and no `cycle`, which would add its own instructions to those that are measured.
    fn take_turns<F: FnMut(u64, usize) -> u64>(self, start: u64, mut turn: F) -> u64
        requires { F.IsAlwaysCallable turn }
    {
        let mut sum = start;
        let mut station = self.first;
        for _ in 0..self.count {
            sum = turn(sum, station);
            station = self.after(station);
        }
        sum
    }
}

// The answers so far with one more. The order of the answers matters.
fn mixed(sum: u64, answer: u64) -> u64 {
    sum.wrapping_mul(31).wrapping_add(answer)
}

// Every station is ordered once.
fn order_all<L: Lock>(rack: &mut Busy<L>, crew: Crew) -> u64 {
    crew.stations().fold(0, |sum, station| mixed(sum, u64::from(rack.order(station))))
}

// Slots of a rack.
pub fn slots<L: Lock>(rack: &mut Busy<L>, crew: Crew) -> u64 {
    let ordered = order_all(rack, crew);
    crew.take_turns(ordered, |sum, station| mixed(sum, rack.serve(station)))
}

// Slots of a rack, each with a look at its station and at the board.
pub fn calls<L: Lock>(rack: &mut Busy<L>, crew: Crew) -> u64 {
    let ordered = order_all(rack, crew);
    crew.take_turns(ordered, |sum, station| {
        let served = mixed(sum, rack.serve(station));
        mixed(served, rack.shown(station))
    })
}

// One turn. A station that comes inside leaves at once, and one that comes to rest begins again.
fn turn<L: Lock>(lock: &mut L, station: usize) -> u64 {
    lock.turn(station);
    let stage = lock.stage(station);
    match stage {
        Some(Stage::Rest) => {
            lock.begin(station);
        }
        Some(Stage::Inside) => {
            lock.end(station);
        }
        _ => {}
    }
    stage.map_or(0, |stage| u64::from(stage.number()))
}

// Turns of a lock, with no rack.
pub fn turns<L: Lock>(lock: &mut L, crew: Crew) -> u64 {
    for station in crew.stations() {
        lock.begin(station);
    }
    crew.take_turns(0, |sum, station| mixed(sum, turn(lock, station)))
}
