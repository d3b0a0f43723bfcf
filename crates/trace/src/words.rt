// Words for verdicts, refusals and registers.
use answers::{Answer, Refusal};
use feed::job::Verdict;
use std::fmt;

// A verdict, by its number and in words.
#[derive(Clone, Copy)]
pub struct Numbered(pub Verdict);

impl fmt::Display for Numbered {
    fn fmt<W: fmt::Write>(&self, f: &mut fmt::Formatter<W>) -> fmt::Result {
        let Numbered(verdict) = *self;
        write!(f, "verdict {}, {verdict}", verdict.number())
    }
}

pub fn tell_refusal(out: &mut impl fmt::Write, refusal: Refusal) -> fmt::Result {
    writeln!(out, "refused, {refusal} ({})", refusal.number())
}

// A register by the name that the station which reaches it would use.
#[derive(Clone, Copy)]
pub enum Name {
    X,
    Y,
    OwnFlag,
    FlagOf(usize),
    Setpoint,
    Depth,
    Signer,
    Entry(i32),
}

impl fmt::Display for Name {
    fn fmt<W: fmt::Write>(&self, f: &mut fmt::Formatter<W>) -> fmt::Result {
        match self {
            Name::X => f.write_str("X"),
            Name::Y => f.write_str("Y"),
            Name::OwnFlag => f.write_str("its flag"),
            Name::FlagOf(station) => write!(f, "the flag of station {station}"),
            Name::Setpoint => f.write_str("setpoint"),
            Name::Depth => f.write_str("depth"),
            Name::Signer => f.write_str("signer"),
            Name::Entry(k) => write!(f, "entry {k}"),
        }
    }
}
