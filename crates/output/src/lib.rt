// The lines of the output: those of the set-up and of each call, in the columns of the sheet, and those of the end.
#![tactic(auto)]

ghost use Rattle.std.specs.Prelude.{◌≡◌, ◌++◌, OnOk, Some, decimal};
ghost use Rattle.std.specs.List.{flat_map};
ghost use Rattle.columns.specs.Field.{line_text};
ghost use Rattle.sheet.specs.Line.{job_letter};
ghost use Rattle.output.specs.Output.{set_up_line, event_line, sheet_refusal_number, sheet_refusal_words, sheet_refusal_line, board_lines, end_lines};

use answers::{Answer, View};
use columns::LINE;
use columns::field::Content;
use columns::write::{write_line, write_signed};
use feed::job::Job;
use kinds::set_up::SetUp;
use runs::events::Event;
use sheet::calls::WrongForm;
use std::alloc::AllocError;
use std::error::Error;
use std::fmt;

// Why a sheet, or the rest of it, is not read.
#[derive(Clone, Copy, PartialEq, Eq, Debug)]
pub enum SheetRefusal {
    WrongForm(WrongForm),
    TooLong,
}

impl SheetRefusal {
    // A match and no cast, since one of the refusals has a line and a column.
    pub fn number(self) -> u8
        ensures { result ≡ sheet_refusal_number self }
    {
        match self {
            SheetRefusal::WrongForm(_) => 8,
            SheetRefusal::TooLong => 9,
        }
    }

    // 'X' with the wrong column and its line, or with 0 and 0.
    pub fn to_line(self) -> [u8; LINE]
        ensures { result ≡ sheet_refusal_line self }
    {
        match self {
            SheetRefusal::WrongForm(WrongForm { line, column }) => {
                write_line(b'X', column, Content::Number(line as u64))
            }
            SheetRefusal::TooLong => write_line(b'X', 0, Content::Number(0)),
        }
    }
}

impl fmt::Display for SheetRefusal {
    ghost output = { λ refusal. Some (sheet_refusal_words refusal) };

    fn fmt<W: fmt::Write>(&self, f: &mut fmt::Formatter<W>) -> fmt::Result {
        match self {
            SheetRefusal::WrongForm(wrong) => write!(f, "{wrong}"),
            SheetRefusal::TooLong => f.write_str("a sheet has at most 65000 bytes"),
        }
    }
}

impl Error for SheetRefusal {}

// A function and no `From`, since neither of the types is declared here.
fn letter_of_job(job: Job) -> u8
    ensures { result ≡ job_letter job }
{
    match job {
        Job::Trim(_) => b'T',
        Job::Undo => b'U',
        Job::Sign(_) => b'G',
    }
}

// The answer to a line of the sheet: its letter, its station and the answer's number.
fn answer_line(letter: u8, station: usize, number: u8) -> [u8; LINE]
    ensures { result ≡ line_text letter station (decimal number) }
{
    write_line(letter, station, Content::Number(u64::from(number)))
}

// The answer to a set-up: its letter, its number of stations and the answer's number.
pub fn line_of_set_up(set_up: SetUp, number: u8) -> [u8; LINE]
    ensures { result ≡ set_up_line set_up number }
{
    answer_line(set_up.kind.into(), set_up.stations, number)
}

// Adds the answer to an order or to a slot: its letter, its station and the answer's number.
fn add_event(out: &mut Vec<u8>, event: Event) -> Result<(), AllocError>
    ensures { OnOk result (out.new.items ≡ out.old.items ++ event_line event) }
{
    match event {
        Event::Ordered(station, job, answer) => {
            out.extend_from_slice(&answer_line(letter_of_job(job), station, answer.number()))
        }
        Event::Slotted(station, answer) => {
            out.extend_from_slice(&answer_line(b'S', station, answer.number()))
        }
        Event::Looked(..) | Event::Shown(_) => Ok(()),
    }
}

// Adds the lines of the events, in their order.
pub fn add_events(out: &mut Vec<u8>, events: &[Event]) -> Result<(), AllocError>
    ensures { OnOk result (out.new.items ≡ out.old.items ++ flat_map event_line events.now) }
{
    for event in events {
        add_event(out, *event)?;
    }
    Ok(())
}

// Adds the setpoint, the depth and the signer.
fn add_board(out: &mut Vec<u8>, board: View) -> Result<(), AllocError>
    ensures { OnOk result (out.new.items ≡ out.old.items ++ board_lines board) }
{
    out.extend_from_slice(&write_signed(b'P', board.setpoint))?;
    out.extend_from_slice(&write_signed(b'D', board.depth))?;
    out.extend_from_slice(&write_signed(b'W', board.signer))
}

// Adds the lines of the end: the board, or the place of a line of wrong form.
pub fn add_end(out: &mut Vec<u8>, wrong: Option<WrongForm>, board: View) -> Result<(), AllocError>
    ensures { OnOk result (out.new.items ≡ out.old.items ++ end_lines wrong board) }
{
    match wrong {
        None => add_board(out, board),
        Some(wrong) => out.extend_from_slice(&SheetRefusal::WrongForm(wrong).to_line()),
    }
}
