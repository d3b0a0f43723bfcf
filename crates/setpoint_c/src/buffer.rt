ghost use Rattle.setpoint_c.specs.Outcomes.{Placed};

use crate::outcome::Outcome;

// Puts an output at the front of the caller's buffer if there is room for all of it, and tells its length.
pub(crate) fn place(output: &[u8], buffer: &mut [u8], output_length: &mut usize) -> Outcome
    ensures { Placed result output.now buffer.old buffer.new output_length.new }
{
    *output_length = output.len();
    if output.len() > buffer.len() {
        return Outcome::TooSmall;
    }
    buffer[..output.len()].copy_from_slice(output);
    Outcome::Written
}
