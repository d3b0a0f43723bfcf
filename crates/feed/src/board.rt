ghost use Rattle.std.specs.Prelude.{◌≡◌};
ghost use Rattle.feed.specs.Board.{position_of, fresh, read as standing, write as written};

use bus::Registers;

// A register by name. Entry 1 is the oldest.
#[derive(Clone, Copy, PartialEq, Eq, Debug)]
pub enum Register {
    Setpoint,
    Depth,
    Signer,
    Entry(i32),
}

impl Register {
    // Where the register stands on the board. There is no entry but 1 to 64.
    pub fn position(self) -> Option<usize>
        ensures { result ≡ position_of self }
    {
        match self {
            Register::Setpoint => Some(0),
            Register::Depth => Some(1),
            Register::Signer => Some(2),
            Register::Entry(k) if (1..=64).contains(&k) => Some(k as usize + 2),
            Register::Entry(_) => None,
        }
    }
}

// The 67 registers: the setpoint, the depth, the signer and the entries 1 to 64.
#[derive(Clone, Copy)]
pub struct Board {
    registers: [i32; 67],
}

impl Board {
    // The start in the setpoint and 0 everywhere else.
    pub fn new(start: i32) -> Board
        ensures { result ≡ fresh start }
    {
        let mut board = Board { registers: [0; 67] };
        board.write(Register::Setpoint, start);
        board
    }
}

// In the place of a register that is no register on the board, 0 is read, and nothing is written.
impl Registers for Board {
    type Name = Register;

    type Value = i32;

    ghost value_of = { standing };

    ghost with_value = { written };

    fn read(&self, register: Register) -> i32 {
        match register.position() {
            Some(at) => self.registers[at],
            None => 0,
        }
    }

    fn write(&mut self, register: Register, value: i32) {
        if let Some(at) = register.position() {
            self.registers[at] = value;
        }
    }
}
