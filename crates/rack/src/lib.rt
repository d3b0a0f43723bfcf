// The rack: a lock, its stations and the feed board, served one bus slot at a time. Written once, over any lock.
#![tactic(auto)]

pub mod calls;
mod number;
