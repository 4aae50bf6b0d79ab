//! Alarms: a watched quantity, the run of readings past its threshold, and the bit that tells of it.
#![tactic(auto)]

ghost use Rattle.std.specs.Prelude.{◌≡◌, Bool};
ghost use Rattle.reading.specs.declared.Measured.{Measured};

use reading::*;

pub mod alarms;
pub mod promises;
pub mod row;
pub mod runs;
pub mod thresholds;

/// A threshold of a watched quantity. Whoever writes one says which readings are past it.
pub trait Threshold {
    ghost passes: { Self → Measured → Bool };

    /// Whether a reading is past this threshold.
    fn is_past(&self, reading: &Reading) -> bool
        ensures answer { result ≡ passes self.now reading.now };
}

/// The run of readings past a threshold that ends with the newest reading.
#[derive(Clone, Copy)]
pub struct Run<T> {
    pub threshold: T,
    /// The tick of its first reading; `None` where the newest reading is not past, or there is none.
    first: Option<u64>,
    /// The tick of the newest reading.
    last: u64,
}

/// An alarm: its bit is one while a run lasts at least the duration.
#[derive(Clone, Copy)]
pub struct Alarm<T> {
    run: Run<T>,
    /// In ticks.
    duration: u8,
    bit: bool,
}
