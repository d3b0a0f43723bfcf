ghost use Rattle.std.specs.Prelude.{◌≡◌};
ghost use Rattle.std.specs.Fmt.{signed_decimal};
ghost use Rattle.columns.specs.Field.{shown, written, line_text};

use crate::LINE;
use crate::field::Content;

// The last N columns of a content, filled from the last one on. They are counted, since a proof knows nothing of what is
// written through an adapter of `iter_mut`.
fn columns_of<const N: usize>(content: Content) -> [u8; N]
    ensures { result ≡ written N content }
{
    let mut columns = [b' '; N];
    let mut front = content;
    for i in (0..N).rev() {
        (front, columns[i]) = front.before();
    }
    columns
}

// A line of the output. Of a number with too many digits it has the last ones.
pub fn write_line(letter: u8, station: usize, value: Content) -> [u8; LINE]
    ensures { result ≡ line_text letter station (shown value) }
{
    let mut line = [b'\n'; LINE];
    line[0] = letter;
    line[1..4].copy_from_slice(&columns_of::<3>(Content::Number(station as u64)));
    line[4..12].copy_from_slice(&columns_of::<8>(value));
    line
}

// A line of the output for no station.
pub fn write_signed(letter: u8, number: i32) -> [u8; LINE]
    ensures { result ≡ line_text letter 0 (signed_decimal number) }
{
    write_line(letter, 0, Content::from(number))
}
