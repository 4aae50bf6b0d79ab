//! The current that a board drives: what boards with a ceiling of their own have in common.

ghost use Rattle.std.specs.Prelude.{◌≡◌, ◌≤◌, if◌then◌else◌, Ok, Err, nat_le};
ghost use Rattle.reading.specs.declared.Fault.TheVariants.{AboveCeiling};

use reading::*;
use std::marker::Model;

/// The charging current that a board drives, and never more than its ceiling in milliamperes.
#[derive(Clone, Copy, PartialEq, Eq, Debug)]
pub struct Drive<const CEILING: u16> {
    current: ChargeMilliamps,
}

// Contracts see a drive as its milliamperes.
impl<const CEILING: u16> Model for Drive<CEILING> {
    ghost use Rattle.std.specs.Prelude.{ℕ, ◌≤◌};

    ghost Value = { ℕ };

    ghost view = { λ d. d.current.0 };

    ghost invariant = { λ d. d.current.0 ≤ CEILING };

    ghost inverse = { λ n. record { current = record { 0 = n } } };
}

impl<const CEILING: u16> Drive<CEILING> {
    /// Nothing is driven yet.
    pub fn none() -> Drive<CEILING>
        ensures answer { result ≡ 0 }
    {
        Drive {
            current: ChargeMilliamps(0),
        }
    }

    /// The highest current that is driven.
    pub fn ceiling(&self) -> ChargeMilliamps
        ensures answer { result.0 ≡ CEILING }
    {
        ChargeMilliamps(CEILING)
    }

    /// Drives this current, or refuses one above the ceiling, and then nothing changes.
    pub fn set(&mut self, current: ChargeMilliamps) -> Result<(), Fault>
        ensures answer { result ≡ (if nat_le current.0 CEILING then Ok tt else Err AboveCeiling) }
        ensures after { self.new ≡ (if nat_le current.0 CEILING then current.0 else self.old) }
    {
        if current > self.ceiling() {
            return Err(Fault::AboveCeiling);
        }
        *self = Drive { current };
        Ok(())
    }

    /// The current that is driven, at most the ceiling.
    pub fn current(&self) -> ChargeMilliamps
        ensures answer { result.0 ≡ self.now }
        ensures top { result.0 ≤ CEILING }
    {
        self.current
    }
}
