// From the bytes of a sheet to the bytes of its output: a line for the set-up, a line for each call in the columns of the sheet,
// and the board at the end. A rack of the sheet's kind of lock makes the calls.
#![tactic(auto)]

pub mod answer;
