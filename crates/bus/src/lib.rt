// The bus: in one slot, one station makes one access, a read or a write of one register, and nothing stronger.
#![tactic(auto)]

ghost use Rattle.std.specs.Prelude.{◌≡◌};
ghost use Rattle.bus.specs.Registers.{performed, carried};

// One access. `R` names a register, and `V` is what a register holds.
#[derive(Clone, Copy, PartialEq, Eq, Debug)]
pub enum Access<R, V> {
    Read(R),
    Write(R, V),
}

// Registers that are reached by their names, over the bus.
pub trait Registers {
    type Name: Copy;

    type Value: Copy;

    // what stands in a register
    ghost value_of: { Self → Self.Name → Self.Value };

    // the registers after one is written
    ghost with_value: { Self → Self.Name → Self.Value → Self };

    // What stands in a register. To look at it is no access.
    fn read(&self, register: Self::Name) -> Self::Value
        ensures { result ≡ value_of self.now register };

    fn write(&mut self, register: Self::Name, value: Self::Value)
        ensures { self.new ≡ with_value self.old register value };

    // Makes one access, and gives the value that went over the bus: what was read, or what was written.
    final fn perform(&mut self, access: Access<Self::Name, Self::Value>) -> Self::Value
        ensures left { self.new ≡ performed with_value self.old access }
        ensures said { result ≡ carried value_of self.old access }
    {
        match access {
            Access::Read(register) => self.read(register),
            Access::Write(register, value) => {
                self.write(register, value);
                value
            }
        }
    }
}
