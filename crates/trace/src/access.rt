// The access that a station's next slot makes, in words.
use crate::words::Name;
use algorithm::{Algorithm, PlaceLock};
use bus::{Access, Registers};
use fast::register::Register as FastRegister;
use fast::shared::Shared as FastShared;
use feed::board::{Board, Register};
use lock::Lock;
use one_bit::register::Register as OneBitRegister;
use one_bit::shared::Shared as OneBitShared;
use rack::calls::Rack;
use std::fmt;
use std::fmt::Display;

// Registers that people call by names.
pub trait Named: Registers {
    // the number by which a value is shown
    type Shown: From<Self::Value> + Display + Drop;

    // The name by which a station calls a register.
    fn name(register: Self::Name, station: usize) -> Name;
}

// The name by which one station calls the flag of another, or its own.
fn flag(owner: usize, station: usize) -> Name {
    if owner == station {
        Name::OwnFlag
    } else {
        Name::FlagOf(owner)
    }
}

impl Named for Board {
    type Shown = i32;

    fn name(register: Register, _station: usize) -> Name {
        match register {
            Register::Setpoint => Name::Setpoint,
            Register::Depth => Name::Depth,
            Register::Signer => Name::Signer,
            Register::Entry(k) => Name::Entry(k),
        }
    }
}

impl Named for FastShared {
    type Shown = usize;

    fn name(register: FastRegister, station: usize) -> Name {
        match register {
            FastRegister::X => Name::X,
            FastRegister::Y => Name::Y,
            FastRegister::Flag(owner) => flag(owner, station),
        }
    }
}

impl Named for OneBitShared {
    type Shown = u8;

    fn name(register: OneBitRegister, station: usize) -> Name {
        let OneBitRegister::Flag(owner) = register;
        flag(owner, station)
    }
}

// A station's access, with the value that goes over the bus: the one that `standing` gives for a register that is read.
fn tell_access<R: Named, F: FnOnce(R::Name) -> R::Value>(
    out: &mut impl fmt::Write,
    station: usize,
    access: Access<R::Name, R::Value>,
    standing: F,
) -> fmt::Result
    requires { F.IsAlwaysCallable standing }
{
    let (verb, register, value) = match access {
        Access::Read(register) => ("reads", register, standing(register)),
        Access::Write(register, value) => ("writes", register, value),
    };
    let name = R::name(register, station);
    let shown = R::Shown::from(value);
    write!(out, "{verb} {name} = {shown}; ")
}

// A lock that tells the access of a station's next turn. It tells nothing of a station that makes none.
pub trait Tells: Lock {
    fn tell_turn(&self, out: &mut impl fmt::Write, station: usize) -> fmt::Result;
}

impl<P: Algorithm> Tells for PlaceLock<P, P::Registers>
where
    P::Registers: Named,
{
    fn tell_turn(&self, out: &mut impl fmt::Write, station: usize) -> fmt::Result {
        match self.next_access(station) {
            Some(access) => {
                tell_access::<P::Registers, _>(out, station, access, |register| self.read(register))
            }
            None => Ok(()),
        }
    }
}

// The access of the station's next slot, on the board if it is inside and else on its lock. It tells nothing where the slot makes none.
pub fn tell_next<L: Tells>(
    out: &mut impl fmt::Write,
    rack: &Rack<L>,
    station: usize,
) -> fmt::Result {
    match rack.next_access(station) {
        Some(access) => {
            tell_access::<Board, _>(out, station, access, |register| rack.register(register))
        }
        None => rack.lock().tell_turn(out, station),
    }
}
