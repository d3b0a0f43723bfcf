// The registers of the lock: the flag of each station, by the station's number.
#[derive(Clone, Copy, PartialEq, Eq, Debug)]
pub enum Register {
    Flag(usize),
}
