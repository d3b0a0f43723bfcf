// Whole runs of a rack: a list of calls, what came of each, and what the works rely on after any list, over any lock.
#![tactic(auto)]

pub mod events;
pub mod run;
