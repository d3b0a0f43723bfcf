ghost use Rattle.std.specs.Prelude.{◌≡◌, ◌*ℤ◌};
ghost use Rattle.std.specs.Int.{saturate_to_bits};
ghost use Rattle.feed.specs.Job.{thousandth};
ghost use Rattle.feed.specs.Laws.{ComputedExactly};
ghost use Rattle.feed.specs.Task.{begun, access_of, judged, restored, undone, progress, board_after, left_to_do};

use crate::board::{Board, Register};
use crate::job::{Job, Verdict};
use bus::{Access, Registers};
use std::ops::ControlFlow::{self, Break, Continue};

// The highest setpoint, in kg/h.
pub const CEILING: i32 = 400_000;

// The most entries of a pile.
const MOST_ENTRIES: i32 = 64;

// A job at its place: the name says the access that comes next. `permille` and the `setpoint` of a sign are what was
// asked for, the `setpoint` of TrimReadDepth and an undo's `difference` are what was read, and all else is ready to be
// used: the entry to read, or the depth, the difference and the setpoint to write.
#[derive(Clone, Copy, PartialEq, Eq, Debug)]
pub enum Task {
    TrimReadSetpoint {
        permille: i32,
    },
    TrimReadDepth {
        permille: i32,
        setpoint: i32,
    },
    TrimWriteEntry {
        depth: i32,
        difference: i32,
        setpoint: i32,
    },
    TrimWriteDepth {
        depth: i32,
        setpoint: i32,
    },
    TrimWriteSetpoint {
        setpoint: i32,
    },
    TrimClearSigner,
    UndoReadDepth,
    UndoReadEntry {
        entry: i32,
        depth: i32,
    },
    UndoReadSetpoint {
        depth: i32,
        difference: i32,
    },
    UndoWriteDepth {
        depth: i32,
        setpoint: i32,
    },
    UndoWriteSetpoint {
        setpoint: i32,
    },
    UndoClearSigner,
    SignReadSetpoint {
        setpoint: i32,
    },
    SignWriteSigner,
}

// A trim's difference, the fraction dropped towards zero. The saturation of the product never acts on a rack's board.
pub fn difference(setpoint: i32, permille: i32) -> i32
    ensures value { result ≡ thousandth (saturate_to_bits 31 (setpoint *ℤ permille)) }
    ensures exact { ComputedExactly }
{
    setpoint.saturating_mul(permille) / 1000
}

// What a trim does once it has read the setpoint and the depth. The saturation of the sum never acts on a rack's board.
fn judge(permille: i32, setpoint: i32, depth: i32) -> ControlFlow<Verdict, Task>
    ensures { result ≡ judged permille setpoint depth }
{
    let difference = difference(setpoint, permille);
    let trimmed = setpoint.saturating_add(difference);
    if depth >= MOST_ENTRIES {
        Break(Verdict::PileFull)
    } else if trimmed > CEILING {
        Break(Verdict::OverCeiling)
    } else {
        Continue(Task::TrimWriteEntry {
            depth: depth + 1,
            difference,
            setpoint: trimmed,
        })
    }
}

// What an undo does once it has read the depth.
fn newest_of(depth: i32) -> ControlFlow<Verdict, Task>
    ensures { result ≡ undone depth }
{
    if depth < 1 {
        Break(Verdict::NothingToUndo)
    } else {
        Continue(Task::UndoReadEntry {
            entry: depth,
            depth: depth - 1,
        })
    }
}

// The setpoint before a trim that made this difference. The saturation never acts on a rack's board.
fn before_trim(setpoint: i32, difference: i32) -> i32
    ensures { result ≡ restored setpoint difference }
{
    setpoint.saturating_sub(difference)
}

// A job becomes its task before the first access.
impl From<Job> for Task {
    ghost from_gives = { λ job task. task ≡ begun job };

    fn from(job: Job) -> Task {
        match job {
            Job::Trim(permille) => Task::TrimReadSetpoint { permille },
            Job::Undo => Task::UndoReadDepth,
            Job::Sign(setpoint) => Task::SignReadSetpoint { setpoint },
        }
    }
}

impl Task {
    // The one access that comes next.
    pub fn access(self, station: u8) -> Access<Register, i32>
        ensures { result ≡ access_of station self }
    {
        match self {
            Task::TrimReadSetpoint { .. } => Access::Read(Register::Setpoint),
            Task::TrimReadDepth { .. } => Access::Read(Register::Depth),
            Task::TrimWriteEntry {
                depth,
                difference,
                ..
            } => { Access::Write(Register::Entry(depth), difference) }
            Task::TrimWriteDepth { depth, .. } => Access::Write(Register::Depth, depth),
            Task::TrimWriteSetpoint { setpoint } => Access::Write(Register::Setpoint, setpoint),
            Task::TrimClearSigner => Access::Write(Register::Signer, 0),
            Task::UndoReadDepth => Access::Read(Register::Depth),
            Task::UndoReadEntry { entry, .. } => Access::Read(Register::Entry(entry)),
            Task::UndoReadSetpoint { .. } => Access::Read(Register::Setpoint),
            Task::UndoWriteDepth { depth, .. } => Access::Write(Register::Depth, depth),
            Task::UndoWriteSetpoint { setpoint } => Access::Write(Register::Setpoint, setpoint),
            Task::UndoClearSigner => Access::Write(Register::Signer, 0),
            Task::SignReadSetpoint { .. } => Access::Read(Register::Setpoint),
            Task::SignWriteSigner => Access::Write(Register::Signer, i32::from(station)),
        }
    }

    // What is left to do after that access, from the value that went over the bus: the task to continue with, or the verdict.
    pub fn next(self, value: i32) -> ControlFlow<Verdict, Task>
        ensures { result ≡ progress self value }
    {
        match self {
            Task::TrimReadSetpoint { permille } => {
                let setpoint = value;
                Continue(Task::TrimReadDepth { permille, setpoint })
            }
            Task::TrimReadDepth { permille, setpoint } => judge(permille, setpoint, value),
            Task::TrimWriteEntry {
                depth,
                setpoint,
                ..
            } => { Continue(Task::TrimWriteDepth { depth, setpoint }) }
            Task::TrimWriteDepth { setpoint, .. } => Continue(Task::TrimWriteSetpoint { setpoint }),
            Task::TrimWriteSetpoint { .. } => Continue(Task::TrimClearSigner),
            Task::TrimClearSigner => Break(Verdict::Done),
            Task::UndoReadDepth => newest_of(value),
            Task::UndoReadEntry { depth, .. } => {
                let difference = value;
                Continue(Task::UndoReadSetpoint { depth, difference })
            }
            Task::UndoReadSetpoint { depth, difference } => {
                let setpoint = before_trim(value, difference);
                Continue(Task::UndoWriteDepth { depth, setpoint })
            }
            Task::UndoWriteDepth { setpoint, .. } => Continue(Task::UndoWriteSetpoint { setpoint }),
            Task::UndoWriteSetpoint { .. } => Continue(Task::UndoClearSigner),
            Task::UndoClearSigner => Break(Verdict::Done),
            Task::SignReadSetpoint { setpoint } if value == setpoint => Continue(
                Task::SignWriteSigner,
            ),
            Task::SignReadSetpoint { .. } => Break(Verdict::SetpointDiffers),
            Task::SignWriteSigner => Break(Verdict::Done),
        }
    }
}

impl Board {
    // One access of a station's task.
    pub fn step(&mut self, station: u8, task: Task) -> ControlFlow<Verdict, Task>
        ensures left { self.new ≡ board_after station self.old task }
        ensures said { result ≡ left_to_do station self.old task }
    {
        let access = task.access(station);
        let value = self.perform(access);
        task.next(value)
    }
}
