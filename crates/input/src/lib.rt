// A sheet's bytes from wherever a program reads them.
#![tactic(auto)]

ghost use Rattle.std.specs.Prelude.{◌≤◌, IfOk, vec_len};

use std::alloc::Global;
use std::io;
use std::io::Read;

// A sheet of more bytes is refused.
pub const LONGEST: usize = 65_000;

// One byte more than a sheet may have is enough to tell that it is too long.
const ENOUGH: usize = LONGEST + 1;

// The bytes of a sheet: all that the reader has, or the first ones, just enough to tell that there are too many. No more is taken.
pub fn read_sheet<R: Read + Drop>(heap: Global, reader: R) -> io::Result<Vec<u8>>
    ensures { IfOk result (λ text. vec_len text ≤ 65001) }
{
    let mut text = Vec::new(heap);
    reader.take(ENOUGH as u64).read_to_end(&mut text)?;
    // `take` has no contract on its limit, so the cut, which finds nothing to do, states it
    text.truncate(ENOUGH);
    Ok(text)
}
