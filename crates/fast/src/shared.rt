ghost use Rattle.fast.specs.Registers.{value_of, with_value};

use crate::register::Register;
use algorithm::flags::Flags;
use bus::Registers;

// What the stations share: X, Y and a flag for each.
#[derive(Clone, Copy)]
pub struct Shared {
    pub(crate) x: usize,
    pub(crate) y: usize,
    pub(crate) flags: Flags,
}

// Over the bus a raised flag is 1, and a lowered one 0.
impl Registers for Shared {
    type Name = Register;

    type Value = usize;

    ghost value_of = { value_of };

    ghost with_value = { with_value };

    fn read(&self, register: Register) -> usize {
        match register {
            Register::X => self.x,
            Register::Y => self.y,
            Register::Flag(station) => usize::from(self.flags.is_raised(station)),
        }
    }

    fn write(&mut self, register: Register, value: usize) {
        match register {
            Register::X => self.x = value,
            Register::Y => self.y = value,
            Register::Flag(station) => self.flags.set(station, value != 0),
        }
    }
}
