//! Ids of tables and jobs.

ghost use Rattle.std.specs.Prelude.{◌≡◌, ◌<◌, ◌+◌, ◌*◌, ◌/◌, ◌%◌, ◌^◌};

use std::marker::Model;

/// Tables that jobs write have numbers above this one. Flushed tables and jobs have numbers below
/// it.
pub const DRAWN_BASE: u128 = 1 << 79;

/// An id of 128 bits: a moment of 48 bits above a number of 80 bits. Contracts see it as one
/// number.
#[derive(Clone, Copy, Debug, PartialEq, Eq, PartialOrd, Ord, Hash)]
pub struct Ulid {
    bits: u128,
}

impl Model for Ulid {
    ghost use Rattle.std.specs.Prelude.{ℕ};

    ghost Value = { ℕ };

    ghost view = { λ u. u.bits };

    ghost inverse = { λ n. record { bits = n } };
}

impl Ulid {
    /// Makes an id of a moment, in milliseconds, and a number. Only the low 48 bits of the moment
    /// are kept.
    pub fn from_parts(moment_ms: u64, number: u128) -> Ulid
        requires { number < 2 ^ 80 }
        ensures { result ≡ (moment_ms % 2 ^ 48) * 2 ^ 80 + number }
    {
        let moment = (moment_ms % (1 << 48)) as u128;
        Ulid {
            bits: moment * (1 << 80) + number,
        }
    }

    /// The moment of the id, in milliseconds.
    pub fn moment_ms(&self) -> u64
        ensures { result ≡ self.now / 2 ^ 80 }
    {
        (self.bits / (1 << 80)) as u64
    }

    /// The number of the id, which is its low 80 bits.
    pub fn number(&self) -> u128
        ensures { result ≡ self.now % 2 ^ 80 }
    {
        self.bits % (1 << 80)
    }
}
