// A lock by an algorithm: each station has a place, a turn makes the one access of its station's place, and where the
// station goes from there follows from the place and the value that went over the bus.
#![tactic(auto)]

ghost use Rattle.std.specs.Prelude.{◌≡◌, ℕ, ◌≤◌, true, false, Some, Option};
ghost use Rattle.lock.specs.Stages.{asked};
ghost use Rattle.lock.specs.Fresh.{Fresh, Made};
ghost use Rattle.lock.specs.Meaning.{Lawful};
ghost use Rattle.algorithm.specs.Plan.{Plan, Coherent};
ghost use Rattle.algorithm.specs.Turns.{found, place_of, stages, with_place, fresh, made_for};
ghost use Rattle.algorithm.specs.Meaning.{Claims, meaning_by};
ghost use Rattle.algorithm.specs.declared.PlaceLock.{PlaceLock};

use bus::{Access, Registers};
use lock::Lock;
use lock::count::{MOST_STATIONS, WrongStationCount};
use lock::stage::Stage;

pub mod flags;

// The names of an algorithm's registers, and what they hold.
pub type Name<P> = <<P as Algorithm>::Registers as Registers>::Name;

pub type Value<P> = <<P as Algorithm>::Registers as Registers>::Value;

// An algorithm, as the place of one station: what it does there, and where it goes.
pub trait Algorithm: Copy {
    type Registers: Registers + Drop;

    // what the algorithm does
    ghost plan: { Plan Self Self.Registers Self.Registers.Name Self.Registers.Value };

    // what it claims of a lock's turns
    ghost claims: { Claims (PlaceLock Self Self.Registers) };

    // Where a station rests.
    fn idle() -> Self
        ensures { result ≡ plan.idle };

    // Where it begins.
    fn entry() -> Self
        ensures { result ≡ plan.entry };

    // Where it goes from inside.
    fn exit() -> Self
        ensures { result ≡ plan.exit };

    // The registers while all rest.
    fn registers() -> Self::Registers
        ensures { result ≡ plan.registers };

    fn stage(self) -> Stage
        ensures { result ≡ plan.stage_at self };

    // The one access that a station makes here; none at rest and none inside.
    fn access(self, station: usize) -> Option<Access<Name<Self>, Value<Self>>>
        ensures { result ≡ plan.access_at station self };

    // Goes to the next place of a station among n, by the value that went over the bus.
    fn turn(&mut self, n: usize, station: usize, value: Value<Self>)
        ensures { self.new ≡ plan.next n station self.old value };

    // a station at rest or inside has no access to make, and any other has one
    ghost coherent: { Coherent plan };

    // a lock by the algorithm owes what every lock owes
    ghost lawful: { Lawful (meaning_by plan Self.Registers.value_of Self.Registers.with_value claims) };

    // a fresh lock is sound, and all its stations rest
    ghost starts: { (n : ℕ) → 1 ≤ n → n ≤ 16 → Fresh (meaning_by plan Self.Registers.value_of Self.Registers.with_value claims) n (fresh plan n) };
}

// A lock. What belongs to station i has the index i - 1. A lock takes no memory from a heap and is made for a number of
// stations that no type knows, so there is room for the most, and the number stands beside them.
#[derive(Drop)]
pub struct PlaceLock<P, M> {
    n: usize,
    registers: M,
    places: [P; MOST_STATIONS],
}

impl<P: Algorithm> PlaceLock<P, P::Registers> {
    // A lock whose n stations rest.
    pub fn new(n: usize) -> Result<Self, WrongStationCount>
        ensures value { result ≡ made_for P.plan n }
        ensures fresh { Made (meaning_by P.plan P.Registers.value_of P.Registers.with_value P.claims) n result }
    {
        if !(1..=MOST_STATIONS).contains(&n) {
            return Err(WrongStationCount);
        }
        Ok(PlaceLock {
            n,
            registers: P::registers(),
            places: [P::idle(); MOST_STATIONS],
        })
    }

    // The place of a station; none for a number that is no station's.
    fn find(&self, station: usize) -> Option<P>
        ensures { result ≡ found self.now station }
    {
        if !(1..=self.n).contains(&station) {
            return None;
        }
        self.places.get(station - 1).copied()
    }

    // The station's place; a number that is no station's has nothing to do.
    pub fn place(&self, station: usize) -> P
        ensures { result ≡ place_of P.plan self.now station }
    {
        self.find(station).unwrap_or(P::idle())
    }

    fn go(&mut self, station: usize, place: P)
        ensures { self.new ≡ with_place self.old station place }
    {
        if (1..=self.places.len()).contains(&station) {
            self.places[station - 1] = place;
        }
    }

    // Takes a station that stands at a stage to a place. Says whether it stood there.
    fn leave(&mut self, stage: Stage, station: usize, place: P) -> bool
        ensures goes { asked (stages P.plan self.old) station ≡ Some stage → (self.new ≡ with_place self.old station place) × (result ≡ true) }
        ensures stays { (asked (stages P.plan self.old) station ≡ Some stage → ⊥) → (self.new ≡ self.old) × (result ≡ false) }
    {
        let there = self.stage(station) == Some(stage);
        if there {
            self.go(station, place);
        }
        there
    }

    // The access that the station's next turn makes; none for one at rest or inside, or for a number that is no station's.
    pub fn next_access(&self, station: usize) -> Option<Access<Name<P>, Value<P>>>
        ensures { result ≡ P.plan.access_at station (place_of P.plan self.now station) }
    {
        self.place(station).access(station)
    }

    // What stands in a register. To look at it is no access.
    pub fn read(&self, register: Name<P>) -> Value<P>
        ensures { result ≡ P.Registers.value_of self.now.registers register }
    {
        self.registers.read(register)
    }
}

impl<P: Algorithm> Lock for PlaceLock<P, P::Registers> {
    ghost meaning = { meaning_by P.plan P.Registers.value_of P.Registers.with_value P.claims };

    ghost lawful = { P.lawful };

    fn stage(&self, station: usize) -> Option<Stage> {
        self.find(station).map(P::stage)
    }

    fn begin(&mut self, station: usize) -> bool {
        self.leave(Stage::Rest, station, P::entry())
    }

    fn turn(&mut self, station: usize) -> bool {
        let mut place = self.place(station);
        match place.access(station) {
            Some(access) => {
                let value = self.registers.perform(access);
                place.turn(self.n, station, value);
                self.go(station, place);
                true
            }
            None => false,
        }
    }

    fn end(&mut self, station: usize) -> bool {
        self.leave(Stage::Inside, station, P::exit())
    }
}
