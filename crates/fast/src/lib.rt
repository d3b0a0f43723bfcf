// Lamport's fast mutual exclusion: a lock for 1 to 16 stations with the registers X and Y and one flag for each station,
// of which a turn reads or writes one. A station that is alone gets in with 5 turns, however many stations there are.
#![tactic(auto)]

use crate::place::Place;
use crate::shared::Shared;
use algorithm::PlaceLock;

pub mod laws;
pub mod place;
pub mod register;
pub mod shared;
#[cfg(test)]
mod tests;

// The lock: its registers, and the place of each station.
pub type Fast = PlaceLock<Place, Shared>;
