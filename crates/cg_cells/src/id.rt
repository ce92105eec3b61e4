ghost use Rattle.std.specs.Prelude.{◌≡◌, ◌<◌, ◌^◌};

use std::marker::Model;

/// The number of a cell, below 2^26. Contracts see it as that number.
#[derive(Clone, Copy, Debug, PartialEq, Eq)]
pub struct Id {
    number: u32,
}

impl Model for Id {
    ghost use Rattle.std.specs.Prelude.{ℕ, ◌<◌, ◌^◌};

    ghost Value = { ℕ };

    ghost view = { λ s. s.number };

    ghost inverse = { λ n. record { number = n } };

    ghost invariant = { λ s. s.number < 2 ^ 26 };
}

impl Id {
    /// The id of the cell with this number.
    pub fn new(number: u32) -> Id
        requires { number < 2 ^ 26 }
        ensures { result ≡ number }
    {
        Id { number }
    }

    /// The number of the cell.
    pub fn number(&self) -> u32
        ensures value { result ≡ self.now }
        ensures small { self.now < 2 ^ 26 }
    {
        self.number
    }
}
