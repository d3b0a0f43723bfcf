ghost use Rattle.std.specs.Prelude.{◌≡◌};
ghost use Rattle.setpoint_c.specs.Outcomes.{outcome_number};

// What came of a sheet for a caller with a buffer. An outcome crosses as its number.
#[derive(Clone, Copy, PartialEq, Eq, Debug)]
pub(crate) enum Outcome {
    // the output stands at the front of the buffer
    Written = 0,
    // the output is longer than the buffer
    TooSmall = 1,
    NoMemory = 2,
}

impl Outcome {
    pub(crate) fn number(self) -> u32
        ensures { result ≡ outcome_number self }
    {
        self as u32
    }
}
