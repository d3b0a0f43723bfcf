// The letter and the words by which a kind of lock is known.
ghost use Rattle.std.specs.Prelude.{◌≡◌, Some, codes};
ghost use Rattle.kinds.specs.Names.{kind_letter, kind_words, KindRead, KindNamed};

use crate::LockKind;
use std::error::Error;
use std::fmt;
use std::str::FromStr;

// A letter, or a text, by which no kind of lock is known.
#[derive(Clone, Copy, PartialEq, Eq, Debug)]
pub struct NoSuchKind;

impl fmt::Display for NoSuchKind {
    ghost output = { λ _. Some (codes "no such kind of lock") };

    fn fmt<W: fmt::Write>(&self, f: &mut fmt::Formatter<W>) -> fmt::Result {
        f.write_str("no such kind of lock")
    }
}

impl Error for NoSuchKind {}

// The letter is that of a sheet's first line.
impl From<LockKind> for u8 {
    ghost from_gives = { λ kind letter. letter ≡ kind_letter kind };

    fn from(kind: LockKind) -> u8 {
        match kind {
            LockKind::Fast => b'F',
            LockKind::OneBit => b'B',
        }
    }
}

impl TryFrom<u8> for LockKind {
    type Error = NoSuchKind;

    ghost try_from_gives = { KindRead };

    fn try_from(letter: u8) -> Result<LockKind, NoSuchKind> {
        match char::from(letter) {
            'F' => Ok(LockKind::Fast),
            'B' => Ok(LockKind::OneBit),
            _ => Err(NoSuchKind),
        }
    }
}

impl fmt::Display for LockKind {
    ghost output = { λ kind. Some (kind_words kind) };

    fn fmt<W: fmt::Write>(&self, f: &mut fmt::Formatter<W>) -> fmt::Result {
        f.write_str(match self {
            LockKind::Fast => "fast",
            LockKind::OneBit => "one-bit",
        })
    }
}

impl FromStr for LockKind {
    type Err = NoSuchKind;

    ghost from_str_gives = { KindNamed };

    fn from_str(text: &str) -> Result<LockKind, NoSuchKind> {
        match text {
            "fast" => Ok(LockKind::Fast),
            "one-bit" => Ok(LockKind::OneBit),
            _ => Err(NoSuchKind),
        }
    }
}
