//! The amount of a trim, checked when it is made.

use std::marker::Model;

pub mod checks;

/// What a trim adds to each current, in milliamperes: from -200 to 200.
#[derive(Clone, Copy, PartialEq, Eq, Debug)]
pub struct TrimAmount {
    milliamps: i16,
}

// Contracts see an amount as its number.
impl Model for TrimAmount {
    ghost use Rattle.std.specs.Prelude.{ℤ, pos, negsuc, ◌≤ℤ◌};

    ghost Value = { ℤ };

    ghost view = { λ t. t.milliamps };

    ghost invariant = { λ t. (negsuc 199 ≤ℤ t.milliamps) × (t.milliamps ≤ℤ pos 200) };

    ghost inverse = { λ a. record { milliamps = a } };
}

/// Why an amount was refused.
#[derive(Clone, Copy, PartialEq, Eq, Debug)]
pub enum TrimFault {
    AmountOutOfRange,
}
