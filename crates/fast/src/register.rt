// The registers of the lock: X and Y, each 0 or a station's number, and the flag of each station, 0 or 1.
#[derive(Clone, Copy, PartialEq, Eq, Debug)]
pub enum Register {
    X,
    Y,
    Flag(usize),
}
