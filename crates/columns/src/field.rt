ghost use Rattle.std.specs.Prelude.{◌≡◌, ◌^◌, ◌<◌, ◌≤◌, length};
ghost use Rattle.columns.specs.Field.{content_after, size_of, content_before, content_signed, FieldRead};

use crate::wrong::WrongColumn;

// A field: a decimal number, right-justified after spaces, without leading zeros.

// Which numbers a field takes.
#[derive(Clone, Copy, PartialEq, Eq, Debug)]
pub enum Form {
    Natural,
    Signed,
    Zero,
}

// What the columns of a field hold: nothing, a minus sign alone, a number, or a number after a minus sign.
#[derive(Clone, Copy, PartialEq, Eq, Debug)]
pub enum Content {
    Blank,
    Minus,
    Number(u64),
    Negative(u64),
}

impl Content {
    // The content with one more column, or nothing where no field goes on so.
    fn after(self, form: Form, last: bool, column: u8) -> Option<Content>
        requires { size_of self < 10 ^ 8 }
        ensures { result ≡ content_after form last self column }
    {
        match (self, column) {
            (Content::Blank, b' ') if !last => Some(Content::Blank),
            (Content::Blank, b'0') if last => Some(Content::Number(0)),
            (Content::Blank, b'1'..=b'9') if form != Form::Zero => {
                Some(Content::Number(u64::from(column - b'0')))
            }
            (Content::Blank, b'-') if !last && form == Form::Signed => Some(Content::Minus),
            (Content::Minus, b'1'..=b'9') => Some(Content::Negative(u64::from(column - b'0'))),
            (Content::Number(n), b'0'..=b'9') => {
                Some(Content::Number(n * 10 + u64::from(column - b'0')))
            }
            (Content::Negative(n), b'0'..=b'9') => {
                Some(Content::Negative(n * 10 + u64::from(column - b'0')))
            }
            _ => None,
        }
    }

    // The content without its last column, and that column.
    pub(crate) fn before(self) -> (Content, u8)
        ensures { result ≡ content_before self }
    {
        match self {
            Content::Blank => (Content::Blank, b' '),
            Content::Minus => (Content::Blank, b'-'),
            Content::Number(n) if n < 10 => (Content::Blank, b'0' + n as u8),
            Content::Number(n) => (Content::Number(n / 10), b'0' + (n % 10) as u8),
            Content::Negative(n) if n < 10 => (Content::Minus, b'0' + n as u8),
            Content::Negative(n) => (Content::Negative(n / 10), b'0' + (n % 10) as u8),
        }
    }

    // The number without its sign.
    pub fn size(self) -> u64
        ensures { result ≡ size_of self }
    {
        match self {
            Content::Blank | Content::Minus => 0,
            Content::Number(n) | Content::Negative(n) => n,
        }
    }
}

impl From<i32> for Content {
    ghost from_gives = { λ number content. content ≡ content_signed number };

    fn from(number: i32) -> Content {
        let size = u64::from(number.unsigned_abs());
        if number < 0 {
            Content::Negative(size)
        } else {
            Content::Number(size)
        }
    }
}

// Reads a field whose first column is the column `first` of its line.
pub(crate) fn read_field(form: Form, first: usize, field: &[u8]) -> Result<Content, WrongColumn>
    requires on_line { first ≤ 13 }
    requires some { 1 ≤ length field.now }
    requires few { length field.now ≤ 8 }
    ensures { FieldRead form first field.now result }
{
    let mut content = Content::Blank;
    for (i, column) in field.iter().enumerate() {
        let last = i + 1 == field.len();
        content = content
            .after(form, last, *column)
            .ok_or(WrongColumn(first + i))?;
    }
    Ok(content)
}
