// A sheet is a text of lines of 13 bytes: a letter, a station in 3 columns, a value in 8 columns and a line feed.
// Its first line sets a rack up, and each later one is a call. What answers a sheet is written in the same columns.
#![tactic(auto)]

pub mod calls;
pub mod line;
pub mod read;
