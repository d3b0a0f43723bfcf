ghost use Rattle.std.specs.Prelude.{◌≡◌, ℕ, ◌<◌, slice_index};
ghost use Rattle.columns.specs.Field.{FieldsRead};

use crate::LINE;
use crate::field::{Content, Form, read_field};
use crate::wrong::WrongColumn;

// The 12 columns after a line's letter, with 0 where the text has ended: no line has that byte.
fn filled(rest: &[u8]) -> [u8; 12]
    ensures { (k : ℕ) → k < 12 → slice_index result k ≡ slice_index rest.now k }
{
    let mut columns = [0; 12];
    let n = rest.len().min(columns.len());
    columns[..n].copy_from_slice(&rest[..n]);
    columns
}

// The station and the value of a line, from the 12 columns after its letter.
pub fn read_fields(form: Form, rest: &[u8]) -> Result<(usize, Content), WrongColumn>
    ensures { FieldsRead form rest.now result }
{
    // Each column has its name.
    let [hundreds, tens, ones, v1, v2, v3, v4, v5, v6, v7, v8, end] = filled(rest);
    let station = read_field(Form::Natural, 2, &[hundreds, tens, ones])?;
    let value = read_field(form, 5, &[v1, v2, v3, v4, v5, v6, v7, v8])?;
    if end != b'\n' {
        return Err(WrongColumn(LINE));
    }
    Ok((station.size() as usize, value))
}
