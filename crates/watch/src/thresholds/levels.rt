//! Thresholds by their register bytes, and which readings are past them.

ghost use Rattle.std.specs.Prelude.{◌≡◌, ◌*◌, pos, None};
ghost use Rattle.watch.specs.Levels.{over_current, hotter, colder, too_hot, degrees};
ghost use Rattle.watch.specs.Rule.{fresh};

use crate::thresholds::*;
use crate::*;
use std::marker::PhantomData;

/// Above this a battery is too hot to be charged.
const TOO_HOT: Celsius = Celsius(58);

/// The threshold that a register byte means.
impl From<u8> for OverCurrent {
    ghost from_gives = { λ byte t. t ≡ 50 * byte };

    fn from(byte: u8) -> OverCurrent {
        OverCurrent {
            above: DischargeMilliamps(50 * u16::from(byte)),
        }
    }
}

/// The register byte that means a threshold.
impl From<OverCurrent> for u8 {
    ghost from_gives = { λ t byte. 50 * byte ≡ t };

    fn from(threshold: OverCurrent) -> u8 {
        (threshold.above.0 / 50) as u8
    }
}

impl Threshold for OverCurrent {
    ghost passes = { over_current };

    fn is_past(&self, reading: &Reading) -> bool {
        // A discharge counts the other way round than a current, so they are compared as plain numbers.
        -i32::from(reading.cur.0) > i32::from(self.above.0)
    }
}

impl Side for Above {
    ghost passes = { hotter };

    fn is_past(limit: Celsius, reading: &Reading) -> bool {
        reading.temp > limit
    }
}

impl Side for Below {
    ghost passes = { colder };

    fn is_past(limit: Celsius, reading: &Reading) -> bool {
        reading.temp < limit
    }
}

/// The threshold that a register byte means.
impl<S> From<u8> for Temperature<S> {
    ghost from_gives = { λ byte t. t ≡ degrees byte };

    fn from(byte: u8) -> Temperature<S> {
        Temperature {
            limit: Celsius(200 - i16::from(byte)),
            side: PhantomData,
        }
    }
}

/// The register byte that means a threshold.
impl<S> From<Temperature<S>> for u8 {
    ghost from_gives = { λ t byte. degrees byte ≡ t };

    fn from(threshold: Temperature<S>) -> u8 {
        (200 - threshold.limit.0) as u8
    }
}

impl<S: Side> Threshold for Temperature<S> {
    ghost passes = { S.passes };

    fn is_past(&self, reading: &Reading) -> bool {
        S::is_past(self.limit, reading)
    }
}

impl Threshold for TooHot {
    ghost passes = { λ t m. too_hot m };

    fn is_past(&self, reading: &Reading) -> bool {
        Above::is_past(TOO_HOT, reading)
    }
}

/// The same limit, kept as a number.
impl From<TooHot> for Hot {
    ghost from_gives = { λ _ t. t ≡ pos 58 };

    fn from(_: TooHot) -> Hot {
        Temperature {
            limit: TOO_HOT,
            side: PhantomData,
        }
    }
}

/// The hot clock: how long the battery has been above 58 degrees, by any threshold that is made from `TooHot`. It is a
/// run without a duration.
pub fn hot_clock_by<T: Threshold + Copy + From<TooHot>>() -> Run<T>
    ensures threshold { T.from_gives (record {}) result.threshold }
    ensures first { result.first ≡ None }
    ensures last { result.last ≡ 0 }
{
    Run::new(T::from(TooHot))
}

/// The hot clock by a threshold that has the number 58.
pub fn hot_clock() -> Run<Hot>
    ensures threshold { result.threshold ≡ pos 58 }
    ensures first { result.first ≡ None }
    ensures last { result.last ≡ 0 }
{
    hot_clock_by::<Hot>()
}

/// The same clock by a threshold that has no number in it.
pub fn too_hot_clock() -> Run<TooHot>
    ensures answer { result ≡ fresh (record {}) }
{
    hot_clock_by::<TooHot>()
}
