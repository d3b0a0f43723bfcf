// The columns of a line: a letter, a station in 3 columns, a value in 8 columns and a line feed. Both fields are read from
// their columns, and written into them.
#![tactic(auto)]

// The bytes of a line, with its line feed.
pub const LINE: usize = 13;

pub mod field;
pub mod read;
pub mod write;
pub mod wrong;
