//! Readings in which one watched quantity is of note.

ghost use Rattle.std.specs.Prelude.{◌≡◌, ℤ, ℕ, pos};
ghost use Rattle.reading.specs.declared.Measured.{Measured as Numbers};
ghost use Rattle.reading.specs.Limits.{limited};
ghost use Rattle.worked_cases.specs.Watched.{of_note};

use reading::*;
use watch::thresholds::*;
use watch::*;

/// A threshold with a register byte, and with readings in which the quantity that it watches has a value.
pub trait Watching: Threshold + Copy + From<u8> {
    ghost numbers: { ℕ → ℤ → Numbers };

    /// The reading at this tick in which the watched quantity has this value.
    fn reading(tick: u64, value: i64) -> Result<Reading, Cause>
        ensures answer { result ≡ limited (numbers tick value) };
}

impl Watching for OverCurrent {
    ghost numbers = { λ tick cur. of_note tick cur (pos 25) };

    fn reading(tick: u64, value: i64) -> Result<Reading, Cause> {
        measured(tick, value, 25)
    }
}

impl<S: Side> Watching for Temperature<S> {
    ghost numbers = { λ tick temp. of_note tick (pos 0) temp };

    fn reading(tick: u64, value: i64) -> Result<Reading, Cause> {
        measured(tick, 0, value)
    }
}

/// A reading with this current and this temperature, and nothing else of note.
fn measured(tick: u64, cur: i64, temp: i64) -> Result<Reading, Cause>
    ensures answer { result ≡ limited (of_note tick cur temp) }
{
    Reading::try_from(Measured {
        tick,
        vbat: 3700,
        vsys: 3700,
        dcin: 5000,
        cur,
        temp,
    })
}
