//! The thresholds of the chip: over-current, hot and cold.

ghost use Rattle.std.specs.Prelude.{◌≡◌, Bool, ℤ};
ghost use Rattle.reading.specs.declared.Measured.{Measured};

use reading::*;
use std::marker::{Model, PhantomData};

pub mod levels;

/// How far a current lies below zero, in milliamperes.
#[derive(Clone, Copy, PartialEq, Eq, Debug)]
pub struct DischargeMilliamps(pub u16);

/// A discharge strictly above this is past. Its register counts steps of 50 mA.
#[derive(Clone, Copy)]
pub struct OverCurrent {
    above: DischargeMilliamps,
}

// Contracts see it as its milliamperes.
impl Model for OverCurrent {
    ghost use Rattle.std.specs.Prelude.{◌≡◌, ℕ, ◌%◌, ◌≤◌};

    ghost Value = { ℕ };

    ghost view = { λ t. t.above.0 };

    ghost invariant = { λ t. (t.above.0 % 50 ≡ 0) × (t.above.0 ≤ 12750) };

    ghost inverse = { λ n. record { above = record { 0 = n } } };
}

/// The side of a limit on which temperatures are past it.
pub trait Side {
    ghost passes: { ℤ → Measured → Bool };

    /// Whether a reading's temperature lies on this side of a limit.
    fn is_past(limit: Celsius, reading: &Reading) -> bool
        ensures answer { result ≡ passes limit.0 reading.now };
}

/// Strictly above the limit.
#[derive(Clone, Copy)]
pub struct Above;

/// Strictly below the limit.
#[derive(Clone, Copy)]
pub struct Below;

/// A battery on this side of the limit is past.
#[derive_where(Clone, Copy)]
pub struct Temperature<S> {
    limit: Celsius,
    side: PhantomData<S>,
}

// Contracts see it as its degrees.
impl<S> Model for Temperature<S> {
    ghost use Rattle.std.specs.Prelude.{ℤ, pos, negsuc, ◌≤ℤ◌};

    ghost Value = { ℤ };

    ghost view = { λ t. t.limit.0 };

    ghost invariant = { λ t. (negsuc 54 ≤ℤ t.limit.0) × (t.limit.0 ≤ℤ pos 200) };

    ghost inverse = { λ z. record { limit = record { 0 = z }; side = record {} } };
}

/// A battery strictly above this is past.
pub type Hot = Temperature<Above>;

/// A battery strictly below this is past.
pub type Cold = Temperature<Below>;

/// A battery above 58 degrees is too hot to be charged. A type of its own beside `Hot`: it has no number in it, so whoever
/// keeps one needs no invariant that says 58.
#[derive(Clone, Copy)]
pub struct TooHot;
