// The feed board and the jobs that are done on it, one access at a time.
#![tactic(auto)]

pub mod board;
pub mod job;
pub mod laws;
pub mod task;
