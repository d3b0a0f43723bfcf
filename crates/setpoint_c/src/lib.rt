// The interface for firmware in C: functions on numbers and bytes, declared in include/setpoint_rack.h. A whole sheet crosses, and
// not a rack: a rack holds enums, which have no form in C.
#![tactic(auto)]

ghost use Rattle.std.specs.Prelude.{◌≡◌, ◌≤◌, length, ◌≢◌};
ghost use Rattle.setpoint_c.specs.Outcomes.{outcome_number};
ghost use Rattle.setpoint_c.specs.declared.outcome.Outcome.TheVariants.{TooSmall};
ghost use Rattle.setpoint_c.specs.Bound.{longest_sheet, output_bound, RefusedAbove, BoundSuffices};
ghost use Rattle.setpoint_c.specs.Left.{Left, Told};
ghost use Rattle.feed.specs.Laws.{ComputedExactly};
ghost use Rattle.feed.specs.Task.{computed};

use crate::buffer::place;
use crate::outcome::Outcome;
use answering::answer::answer;
use columns::LINE;
use feed::task::difference;
use input::LONGEST;
use std::alloc::Global;

mod buffer;
mod outcome;
#[cfg(test)]
mod tests;

// Three lines: what the end of a sheet adds to a line for each of its own.
const END_LINES: usize = 3 * LINE;

// Answers a sheet into the caller's buffer.
fn answer_into(heap: Global, sheet: &[u8], buffer: &mut [u8], output_length: &mut usize) -> Outcome
    ensures { Left sheet.now buffer.old result buffer.new output_length.new }
{
    match answer(heap, sheet) {
        Ok(output) => place(&output, buffer, output_length),
        Err(_) => {
            *output_length = 0;
            Outcome::NoMemory
        }
    }
}

// The output of a sheet at the front of the caller's buffer, and its length; the answer is the number of the outcome.
#[unsafe(no_mangle)]
pub extern "C" fn setpoint_answer(
    heap: Global,
    sheet: &[u8],
    buffer: &mut [u8],
    output_length: &mut usize,
) -> u32
    ensures told { Told sheet.now buffer.old result buffer.new output_length.new }
    ensures room { output_bound (length sheet.now) ≤ length buffer.old → result ≢ outcome_number TooSmall }
{
    answer_into(heap, sheet, buffer, output_length).number()
}

// The size of a buffer that has room for the output of any sheet of that length.
#[unsafe(no_mangle)]
pub extern "C" fn setpoint_output_bound(sheet_length: usize) -> usize
    ensures value { result ≡ output_bound sheet_length }
    ensures suffices { BoundSuffices }
{
    sheet_length.min(LONGEST) + END_LINES
}

// The most bytes of a sheet that is read; a longer one is refused whole.
#[unsafe(no_mangle)]
pub extern "C" fn setpoint_longest_sheet() -> usize
    ensures value { result ≡ longest_sheet }
    ensures exact { RefusedAbove }
{
    LONGEST
}

// What a trim by that many permille would add to that setpoint, for a display.
#[unsafe(no_mangle)]
pub extern "C" fn setpoint_trim_difference(setpoint: i32, permille: i32) -> i32
    ensures value { result ≡ computed setpoint permille }
    ensures exact { ComputedExactly }
{
    difference(setpoint, permille)
}
