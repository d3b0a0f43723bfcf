ghost use Rattle.std.specs.Prelude.{Some};
ghost use Rattle.columns.specs.Wrong.{wrong_column_text};

use std::error::Error;
use std::fmt;

// The column of a line at which no line goes on, counted from 1.
#[derive(Clone, Copy, PartialEq, Eq, Debug)]
pub struct WrongColumn(pub usize);

impl fmt::Display for WrongColumn {
    ghost output = { λ wrong. Some (wrong_column_text wrong) };

    fn fmt<W: fmt::Write>(&self, f: &mut fmt::Formatter<W>) -> fmt::Result {
        write!(f, "wrong form at column {}", self.0)
    }
}

impl Error for WrongColumn {}
