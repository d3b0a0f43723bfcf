ghost use Rattle.std.specs.Prelude.{◌≡◌, Some};
ghost use Rattle.feed.specs.Job.{verdict_number};
ghost use Rattle.feed.specs.Words.{job_words, verdict_words};

use std::fmt;

// What a station is ordered to do: trim the setpoint by so many permille, undo the newest trim, or sign a setpoint.
#[derive(Clone, Copy, PartialEq, Eq, Debug)]
pub enum Job {
    Trim(i32),
    Undo,
    Sign(i32),
}

// How a job ended. A verdict is shown by its number.
#[derive(Clone, Copy, PartialEq, Eq, Debug)]
pub enum Verdict {
    Done = 1,
    PileFull = 2,
    OverCeiling = 3,
    NothingToUndo = 4,
    SetpointDiffers = 5,
}

impl Verdict {
    pub fn number(self) -> u8
        ensures { result ≡ verdict_number self }
    {
        self as u8
    }
}

impl fmt::Display for Verdict {
    ghost output = { λ verdict. Some (verdict_words verdict) };

    fn fmt<W: fmt::Write>(&self, f: &mut fmt::Formatter<W>) -> fmt::Result {
        f.write_str(match self {
            Verdict::Done => "done",
            Verdict::PileFull => "the pile is full",
            Verdict::OverCeiling => "over the ceiling",
            Verdict::NothingToUndo => "nothing to undo",
            Verdict::SetpointDiffers => "the setpoint differs",
        })
    }
}

impl fmt::Display for Job {
    ghost output = { λ job. Some (job_words job) };

    fn fmt<W: fmt::Write>(&self, f: &mut fmt::Formatter<W>) -> fmt::Result {
        match self {
            Job::Trim(permille) => write!(f, "trim by {permille} permille"),
            Job::Undo => f.write_str("undo the newest trim"),
            Job::Sign(setpoint) => write!(f, "sign {setpoint} kg/h"),
        }
    }
}
