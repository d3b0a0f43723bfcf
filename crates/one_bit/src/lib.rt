// Lamport's One-Bit algorithm: a lock for 1 to 16 stations with one flag for each, of which a turn reads or writes one.
#![tactic(auto)]

use crate::place::Place;
use crate::shared::Shared;
use algorithm::PlaceLock;

pub mod laws;
pub mod place;
pub mod register;
pub mod shared;

// The lock: its flags, and the place of each station.
pub type OneBit = PlaceLock<Place, Shared>;
