// A rack that is kept at work.
use answers::{Answer, Refusal, Served};
use feed::job::Job;
use lock::Lock;
use rack::calls::Rack;

const START: u32 = 200_000;

const PERMILLE: i32 = 33;

// A rack whose stations never run out of jobs, and the job that is given out next.
#[derive(Drop)]
pub struct Busy<L> {
    rack: Rack<L>,
    next: Job,
}

// The jobs in the order in which they are given out. Each trim is followed by an undo, so that the pile stays low.
fn job_after(job: Job) -> Job {
    match job {
        Job::Trim(_) => Job::Undo,
        Job::Undo => Job::Sign(START as i32),
        Job::Sign(_) => Job::Trim(PERMILLE),
    }
}

impl<L: Lock + Drop> Busy<L> {
    pub fn set_up(lock: L) -> Result<Busy<L>, Refusal> {
        let rack = Rack::set_up(lock, START)?;
        let next = Job::Trim(PERMILLE);
        Ok(Busy { rack, next })
    }
}

impl<L: Lock> Busy<L> {
    // Gives the station the next job.
    pub fn order(&mut self, station: usize) -> u8 {
        let answer = self.rack.order(station, self.next);
        self.next = job_after(self.next);
        answer.number()
    }

    // One slot, and a new order for a station that comes to rest.
    pub fn serve(&mut self, station: usize) -> u64 {
        let answer = self.rack.slot(station);
        let ordered = match answer {
            Ok(Served::NowResting) => self.order(station),
            _ => 0,
        };
        u64::from(answer.number()) + u64::from(ordered)
    }

    // What a look at the station and a look at the board show, summed.
    pub fn shown(&self, station: usize) -> u64 {
        let seen = match self.rack.look(station) {
            Ok(seen) => {
                u64::from(seen.stage.number())
                    + u64::from(seen.count)
                    + u64::from(seen.last_number())
            }
            Err(refusal) => u64::from(refusal.number()),
        };
        let view = self.rack.board();
        let board = u64::from(view.setpoint.unsigned_abs())
            + u64::from(view.depth.unsigned_abs())
            + u64::from(view.signer.unsigned_abs());
        (seen + board).wrapping_add(view.inside_number() as u64)
    }
}
