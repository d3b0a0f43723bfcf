ghost use Rattle.one_bit.specs.Registers.{value_of, with_value};

use crate::register::Register;
use algorithm::flags::Flags;
use bus::Registers;

// What the stations share: a flag for each.
#[derive(Clone, Copy)]
pub struct Shared {
    pub(crate) flags: Flags,
}

impl Registers for Shared {
    type Name = Register;

    type Value = bool;

    ghost value_of = { value_of };

    ghost with_value = { with_value };

    fn read(&self, register: Register) -> bool {
        let Register::Flag(station) = register;
        self.flags.is_raised(station)
    }

    fn write(&mut self, register: Register, value: bool) {
        let Register::Flag(station) = register;
        self.flags.set(station, value);
    }
}
