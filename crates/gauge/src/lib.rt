//! The coulomb counter: the charge that is kept, and the count that the chip shows for it.
#![tactic(auto)]

use reading::*;
use std::marker::Model;

pub mod counting;
pub mod promises;

/// The kept charge, in milliamperes times ticks. It stops at the ends of the counter's range.
#[derive(Clone, Copy, PartialEq, Eq, Debug)]
pub struct Gauge {
    charge: u64,
}

// Contracts see a gauge as its charge.
impl Model for Gauge {
    ghost use Rattle.std.specs.Prelude.{ℕ, ◌≤◌};
    ghost use Rattle.gauge.specs.Counts.{fullest};

    ghost Value = { ℕ };

    ghost view = { λ g. g.charge };

    ghost invariant = { λ g. g.charge ≤ fullest };

    ghost inverse = { λ q. record { charge = q } };
}

/// A byte of the count, by its register.
#[derive(Clone, Copy, PartialEq, Eq, Debug)]
pub enum CountByte {
    /// CC_CCNTD_3, the highest; only its low four bits belong to the count.
    Ccntd3,
    Ccntd2,
    Ccntd1,
    /// CC_CCNTD_0, the lowest; its low two bits are always 0.
    Ccntd0,
}

/// What happens to a gauge.
#[derive(Clone, Copy, PartialEq, Eq, Debug)]
pub enum Event {
    /// A current flowed for some ticks.
    Flowed(Milliamps, u64),
    /// A byte of the count was written.
    Written(CountByte, u8),
}
