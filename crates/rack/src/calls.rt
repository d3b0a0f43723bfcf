ghost use Rattle.std.specs.Prelude.{◌≡◌};
ghost use Rattle.lock.specs.Stages.{is_inside};
ghost use Rattle.feed.specs.Board.{read};
ghost use Rattle.rack.specs.Calls.{found, fitting, order_answer, order_rack, slot_answer, slot_rack, turned_rack, worked_answer, worked_rack, look_answer, next_access, inside_among, board_answer, set_up as setting_up};

use crate::number::Number;
use answers::{Refusal, Seen, Served, View};
use bus::{Access, Registers};
use feed::board::{Board, Register};
use feed::job::{Job, Verdict};
use feed::task::{CEILING, Task};
use lock::Lock;
use lock::count::MOST_STATIONS;
use lock::stage::Stage;
use std::ops::ControlFlow::{Break, Continue};

// What the rack keeps of one station: its job as far as it is done, the slots since its order, and its last verdict.
#[derive(Clone, Copy)]
pub struct Station {
    task: Task,
    count: u16,
    last: Option<Verdict>,
}

// What belongs to station i has the index i - 1. A rack takes no memory from a heap: there is room for the most stations of a lock.
#[derive(Drop)]
pub struct Rack<L> {
    lock: L,
    stations: [Station; MOST_STATIONS],
    board: Board,
}

// Sends a job back that no station may be given.
fn check(job: Job) -> Result<(), Refusal>
    ensures { result ≡ fitting job }
{
    match job {
        Job::Trim(permille) if permille == 0 || !(-200..=200).contains(&permille) => {
            Err(Refusal::TrimValue)
        }
        Job::Sign(setpoint) if !(0..=CEILING).contains(&setpoint) => Err(Refusal::SignValue),
        _ => Ok(()),
    }
}

impl<L: Lock + Drop> Rack<L> {
    // A rack with a lock of its own; its stations have made no slot yet.
    pub fn set_up(lock: L, start: u32) -> Result<Rack<L>, Refusal>
        ensures { result ≡ setting_up lock start }
    {
        if start > CEILING as u32 {
            return Err(Refusal::Start);
        }
        let idle = Station {
            task: Task::TrimReadSetpoint { permille: 0 },
            count: 0,
            last: None,
        };
        Ok(Rack {
            lock,
            stations: [idle; MOST_STATIONS],
            board: Board::new(start as i32),
        })
    }
}

impl<L: Lock> Rack<L> {
    // The station of a number, with its stage.
    fn find(&self, station: usize) -> Result<(Number, Stage), Refusal>
        ensures { result ≡ found L.meaning self.now station }
    {
        let number = Number::new(station).ok_or(Refusal::StationNumber)?;
        let stage = self.lock.stage(station).ok_or(Refusal::StationNumber)?;
        Ok((number, stage))
    }

    // Gives a resting station a job. It makes no access.
    pub fn order(&mut self, station: usize, job: Job) -> Result<(), Refusal>
        ensures left { self.new ≡ order_rack L.meaning self.old station job }
        ensures said { result ≡ order_answer L.meaning self.old station job }
    {
        let (number, stage) = self.find(station)?;
        check(job)?;
        if stage != Stage::Rest {
            return Err(Refusal::NotResting);
        }
        self.lock.begin(station);
        self.stations[number.index()] = Station {
            task: job.into(),
            count: 0,
            ..self.stations[number.index()]
        };
        Ok(())
    }

    // Serves one station: one access.
    pub fn slot(&mut self, station: usize) -> Result<Served, Refusal>
        ensures left { self.new ≡ slot_rack L.meaning self.old station }
        ensures said { result ≡ slot_answer L.meaning self.old station }
    {
        let (number, stage) = self.find(station)?;
        match stage {
            Stage::Rest => Err(Refusal::Resting),
            Stage::Trying => {
                self.turn(number);
                match self.lock.stage(station) {
                    Some(Stage::Inside) => Ok(Served::NowInside),
                    _ => Ok(Served::StillTrying),
                }
            }
            Stage::Inside => Ok(self.work(number)),
            Stage::Leaving => {
                self.turn(number);
                match self.lock.stage(station) {
                    Some(Stage::Rest) => Ok(Served::NowResting),
                    _ => Ok(Served::StillLeaving),
                }
            }
        }
    }

    // One turn of the lock, counted.
    fn turn(&mut self, number: Number)
        ensures { self.new ≡ turned_rack L.meaning self.old number }
    {
        self.lock.turn(number.station());
        let station = &mut self.stations[number.index()];
        station.count = station.count.saturating_add(1);
    }

    // One access of the station's job, counted; with the last one the station's time inside ends.
    fn work(&mut self, number: Number) -> Served
        ensures left { self.new ≡ worked_rack L.meaning self.old number }
        ensures said { result ≡ worked_answer self.old number }
    {
        let Station { task, count, last } = self.stations[number.index()];
        let count = count.saturating_add(1);
        match self.board.step(number.on_board(), task) {
            Continue(task) => {
                self.stations[number.index()] = Station { task, count, last };
                Served::Working
            }
            Break(verdict) => {
                self.lock.end(number.station());
                let last = Some(verdict);
                self.stations[number.index()] = Station { task, count, last };
                Served::Ended(verdict)
            }
        }
    }

    // A station's stage, count and last verdict. It alters nothing.
    pub fn look(&self, station: usize) -> Result<Seen, Refusal>
        ensures { result ≡ look_answer L.meaning self.now station }
    {
        let (number, stage) = self.find(station)?;
        let Station { count, last, .. } = self.stations[number.index()];
        Ok(Seen { stage, count, last })
    }

    // The access that the next slot of a station inside makes on the board; none for any other station.
    pub fn next_access(&self, station: usize) -> Option<Access<Register, i32>>
        ensures { result ≡ next_access L.meaning self.now station }
    {
        match self.find(station) {
            Ok((number, Stage::Inside)) => {
                Some(self.stations[number.index()].task.access(number.on_board()))
            }
            _ => None,
        }
    }

    fn is_inside(&self, station: usize) -> bool
        ensures { result ≡ is_inside (L.meaning.stages self.now.lock) station }
    {
        self.lock.stage(station) == Some(Stage::Inside)
    }

    // The station inside, if there is one, found by asking the lock from its highest station down.
    fn inside(&self) -> Option<usize>
        ensures { result ≡ inside_among (L.meaning.stages self.now.lock) 16 }
    {
        (1..=MOST_STATIONS)
            .rev()
            .find(|station| self.is_inside(*station))
    }

    // What the board shows; with a station inside, its job may be half done.
    pub fn board(&self) -> View
        ensures { result ≡ board_answer L.meaning self.now }
    {
        View {
            setpoint: self.board.read(Register::Setpoint),
            depth: self.board.read(Register::Depth),
            signer: self.board.read(Register::Signer),
            inside: self.inside(),
        }
    }

    // What stands in a register of the board. It alters nothing.
    pub fn register(&self, register: Register) -> i32
        ensures { result ≡ read self.now.board register }
    {
        self.board.read(register)
    }

    // The lock, to look at.
    pub fn lock(&self) -> &L
        ensures { result.now ≡ self.now.lock }
    {
        &self.lock
    }
}
