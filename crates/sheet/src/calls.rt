ghost use Rattle.std.specs.Prelude.{IfOk, Some};
ghost use Rattle.sheet.specs.Sheet.{Later, OneReading};
ghost use Rattle.sheet.specs.Words.{wrong_form_text};

use crate::line::Call;
use crate::read::read_call;
use columns::LINE;
use columns::wrong::WrongColumn;
use std::alloc::{AllocError, Global};
use std::error::Error;
use std::fmt;

// A line of wrong form: its number on the sheet, and its wrong column.
#[derive(Clone, Copy, PartialEq, Eq, Debug)]
pub struct WrongForm {
    pub line: usize,
    pub column: usize,
}

impl fmt::Display for WrongForm {
    ghost output = { λ wrong. Some (wrong_form_text wrong) };

    fn fmt<W: fmt::Write>(&self, f: &mut fmt::Formatter<W>) -> fmt::Result {
        write!(f, "line {}: {}", self.line, WrongColumn(self.column))
    }
}

impl Error for WrongForm {}

// The calls of a text, up to its end or to a line of wrong form.
#[derive(Drop)]
pub struct Calls {
    pub calls: Vec<Call>,
    pub wrong: Option<WrongForm>,
}

// Reads the calls of a sheet, from its second line on.
pub fn read_calls(heap: Global, text: &[u8]) -> Result<Calls, AllocError>
    ensures { IfOk result (λ c. Later 2 text.now c.calls.items c.wrong) }
{
    let mut calls = Vec::new(heap);
    for line in text.chunks(LINE) {
        match read_call(line) {
            Ok(call) => calls.push(call)?,
            Err(WrongColumn(column)) => {
                let wrong = WrongForm {
                    line: calls.len() + 2,
                    column,
                };
                return Ok(Calls {
                    calls,
                    wrong: Some(wrong),
                });
            }
        }
    }
    Ok(Calls { calls, wrong: None })
}

// A text is read in one way.
pub fn text_is_read_in_one_way()
    ensures { OneReading }
{}
