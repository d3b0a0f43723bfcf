// Damaged lines with their wrong columns, worked out by hand from the rule of the wrong column.
use columns::wrong::WrongColumn;
use sheet::read::{read_call, read_set_up};
use std::fmt::Debug;
use std::process::Abort;

// Each text is refused at its column.
fn refused<T: Debug + PartialEq + Drop, F: Fn(&[u8]) -> Result<T, WrongColumn>>(
    rt: &impl Abort,
    read: F,
    cases: &[(&[u8], usize)],
)
    requires { F.IsAlwaysCallable read }
{
    for (text, column) in cases {
        assert_eq!(rt; read(text), Err(WrongColumn(*column)), "{text:?}");
    }
}

const FIRST_LINES_UP_TO_THE_STATION: &[(&[u8], usize)] = &[
    // no text at all
    (b"", 1),
    // an empty line
    (b"\n", 1),
    // a small letter
    (b"b  1  200000\n", 1),
    // a letter of no lock
    (b"L  1  200000\n", 1),
    // a call in place of the set-up
    (b"S  1       0\n", 1),
    // a space in front
    (b" B  1 200000\n", 1),
    // the text ends after the letter
    (b"B", 2),
    // the line ends after the letter
    (b"B\n", 2),
    // two letters
    (b"BB 1  200000\n", 2),
    // leading zeros
    (b"B001  200000\n", 2),
    // a space after a figure
    (b"B1   200000\n", 3),
    // a leading zero
    (b"B 01  200000\n", 3),
    // a minus sign before a station
    (b"B -1  200000\n", 3),
    // a space after a figure
    (b"B 1   200000\n", 4),
    // a blank station
    (b"B     200000\n", 4),
    // a letter for a figure
    (b"B  a  200000\n", 4),
    // a letter after a figure
    (b"F 1a  200000\n", 4),
];

#[test]
fn first_lines_up_to_the_station(rt: HostRuntime) {
    refused(&rt, read_set_up, FIRST_LINES_UP_TO_THE_STATION);
}

const FIRST_LINES_FROM_THE_START_ON: &[(&[u8], usize)] = &[
    // the text ends after the station
    (b"B  1", 5),
    // the line ends after the station
    (b"B  1\n", 5),
    // a leading zero
    (b"B  1 0200000\n", 6),
    // a minus sign before a start
    (b"B  1 -200000\n", 6),
    // a space among figures
    (b"F  1  200 00\n", 10),
    // a comma
    (b"B  1  2000,0\n", 11),
    // a blank start
    (b"B  1        \n", 12),
    // a column too few
    (b"B  1  20000\n", 12),
    // a column too many
    (b"B  1  2000000\n", 13),
    // no line feed
    (b"B  1  200000", 13),
    // a carriage return
    (b"B  1  200000\r\n", 13),
    // a space at the end
    (b"F  1  200000 \n", 13),
    // nine figures of a start
    (b"B999999999999\n", 13),
];

#[test]
fn first_lines_from_the_start_on(rt: HostRuntime) {
    refused(&rt, read_set_up, FIRST_LINES_FROM_THE_START_ON);
}

const LATER_LINES_UP_TO_THE_STATION: &[(&[u8], usize)] = &[
    // an empty line
    (b"\n", 1),
    // a set-up after the first line
    (b"B  1  200000\n", 1),
    // a set-up after the first line
    (b"F  1  200000\n", 1),
    // a letter of no call
    (b"X  1       0\n", 1),
    // a small letter
    (b"t  1      33\n", 1),
    // the text ends after the letter
    (b"T", 2),
    // two letters
    (b"GG 1  200000\n", 2),
    // a minus sign before a station
    (b"T -1      33\n", 3),
    // a space after a figure
    (b"S1  1      0\n", 3),
    // a space after a figure
    (b"S 1        0\n", 4),
    // a station one column too far
    (b"G   1 200000\n", 4),
    // the text ends after the station
    (b"T 12", 5),
    // leading zeros
    (b"T  100000033\n", 5),
    // four figures of a station
    (b"S1000      0\n", 5),
    // a tab
    (b"G  1\t200000\n", 5),
];

#[test]
fn later_lines_up_to_the_station(rt: HostRuntime) {
    refused(&rt, read_call, LATER_LINES_UP_TO_THE_STATION);
}

const LATER_LINES_IN_THE_VALUE: &[(&[u8], usize)] = &[
    // leading zeros
    (b"T  1 0000033\n", 6),
    // a zero before the last column
    (b"S  1 0\n", 6),
    // a minus sign before a value to sign
    (b"G  1 -200000\n", 6),
    // a letter for a figure
    (b"G  1  20O000\n", 9),
    // a space after the minus sign
    (b"T  1    - 33\n", 10),
    // two minus signs
    (b"T  1    --33\n", 10),
    // a leading zero
    (b"T  1     033\n", 10),
    // a plus sign
    (b"T  1     +33\n", 10),
    // a leading zero after the minus sign
    (b"T  1     -05\n", 11),
    // a minus sign after a figure
    (b"T  1     3-3\n", 11),
    // a decimal point
    (b"T  1    33.0\n", 11),
    // a leading zero
    (b"U  1      00\n", 11),
    // a minus sign where none is taken
    (b"U  1      -0\n", 11),
    // a value of an undo
    (b"U  1      10\n", 11),
    // a column too few
    (b"S  1      0\n", 11),
    // a space among figures
    (b"G  1  2000 0\n", 11),
];

#[test]
fn later_lines_in_the_value(rt: HostRuntime) {
    refused(&rt, read_call, LATER_LINES_IN_THE_VALUE);
}

const LATER_LINES_AT_THE_END: &[(&[u8], usize)] = &[
    // a minus sign before 0
    (b"T  1      -0\n", 12),
    // a minus sign alone
    (b"T  1       -\n", 12),
    // a value of an undo
    (b"U  1       1\n", 12),
    // a blank value
    (b"U  1        \n", 12),
    // a value of a slot
    (b"S  1       5\n", 12),
    // bytes outside the listed ones
    (b"S  1       \xc2\xb5\n", 12),
    // no line feed
    (b"T  1      33", 13),
    // eight figures after the minus sign
    (b"T  1-99999999\n", 13),
    // a tab at the end
    (b"G  1  200000\t\n", 13),
    // a carriage return
    (b"S  1       0\r\n", 13),
    // a space at the end
    (b"T  1      33 \n", 13),
];

#[test]
fn later_lines_at_the_end(rt: HostRuntime) {
    refused(&rt, read_call, LATER_LINES_AT_THE_END);
}
