// The message for a sheet, or a line of one, that is not read.
use columns::LINE;
use columns::wrong::WrongColumn;
use input::LONGEST;
use output::SheetRefusal;
use sheet::calls::WrongForm;
use std::fmt;

// How much of a line is shown.
const WIDTH: usize = 40;

// What stands for the rest.
const DOTS: usize = 3;

pub fn tell_too_long(out: &mut impl fmt::Write) -> fmt::Result {
    let number = SheetRefusal::TooLong.number();
    writeln!(
        out,
        "the sheet: refused, more than {LONGEST} bytes ({number})"
    )
}

// A byte as it is shown, and '?' for one that does not print as one column.
fn printable(byte: u8) -> char {
    match byte {
        b' '..=b'~' => char::from(byte),
        _ => '?',
    }
}

// A line without its line feed. Of a long one dots stand for the rest.
fn show_line(out: &mut impl fmt::Write, line: &[u8]) -> fmt::Result {
    for byte in line.iter().take(WIDTH) {
        out.write_char(printable(*byte))?;
    }
    for _ in line.iter().skip(WIDTH).take(DOTS) {
        out.write_char('.')?;
    }
    Ok(())
}

// What a line has in a column, by its letter.
fn expected(line: usize, letter: Option<u8>, column: usize) -> &'static str {
    match (column, letter) {
        (1, _) if line == 1 => "F or B, to set up a rack",
        (1, _) => "T, U, G or S, for a call",
        (2..=4, _) => "a number that ends in column 4, after spaces, without leading zeros",
        (5..=12, Some(b'S' | b'U')) => "0 in column 12, after spaces",
        (5..=12, Some(b'T')) =>
            "a number that ends in column 12, after spaces, without leading zeros; it may be negative",
        (5..=12, _) =>
            "a number that ends in column 12, after spaces, without leading zeros or a sign",
        _ => "the line feed",
    }
}

// What is shown of a line, without its line feed. All lines before it are of right form.
fn shown_of(text: &[u8], line: usize) -> &[u8] {
    let start = line.saturating_sub(1).saturating_mul(LINE);
    let rest = text.get(start..).unwrap_or(&[]);
    let most = rest.len().min(WIDTH + DOTS);
    rest[..most]
        .split(|byte| *byte == b'\n')
        .next()
        .unwrap_or(&[])
}

// A line of wrong form, with a caret under its wrong column.
pub fn tell_wrong(out: &mut impl fmt::Write, text: &[u8], wrong: WrongForm) -> fmt::Result {
    let WrongForm { line, column } = wrong;
    let number = SheetRefusal::WrongForm(wrong).number();
    write!(
        out,
        "line {line}: refused, {}; the sheet is read no further ({number})\n  ",
        WrongColumn(column)
    )?;
    let shown = shown_of(text, line);
    show_line(out, shown)?;
    let words = expected(line, shown.first().copied(), column);
    writeln!(out, "\n  {:>column$}\n  expected: {words}", '^')
}
