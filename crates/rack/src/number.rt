ghost use Rattle.std.specs.Prelude.{◌≡◌, ℕ, ◌-◌, ◌<◌, ◌≤◌};
ghost use Rattle.rack.specs.Number.{numbered};

use lock::count::MOST_STATIONS;
use std::marker::Model;

// A number from 1 to 16: that of a station for which a rack has room.
#[derive(Clone, Copy)]
pub struct Number {
    station: usize,
}

impl Model for Number {
    ghost Value = { ℕ };

    ghost view = { λ number. number.station };

    ghost invariant = { λ number. (1 ≤ number.station) × (number.station ≤ 16) };

    ghost inverse = { λ station. record { station = station } };
}

impl Number {
    pub fn new(station: usize) -> Option<Number>
        ensures { result ≡ numbered station }
    {
        if (1..=MOST_STATIONS).contains(&station) {
            Some(Number { station })
        } else {
            None
        }
    }

    // The number itself.
    pub fn station(self) -> usize
        ensures value { result ≡ self }
        ensures within { (1 ≤ result) × (result ≤ 16) }
    {
        self.station
    }

    // The number as the signer of a setpoint.
    pub fn on_board(self) -> u8
        ensures { result ≡ self }
    {
        self.station as u8
    }

    // Where the rack keeps what belongs to the station.
    pub fn index(self) -> usize
        ensures value { result ≡ self - 1 }
        ensures within { result < 16 }
    {
        self.station - 1
    }
}
