//! What a gauge counts.

ghost use Rattle.std.specs.Prelude.{◌≡◌, ◌≤◌};
ghost use Rattle.gauge.specs.Counts.{fullest, flowing, count_of, least_for, byte_of, kept_bits, replaced};

use crate::*;
use reading::*;

/// The largest charge that is kept.
const FULLEST: u128 = 163_839_999_999;

impl Gauge {
    /// A gauge without charge.
    pub fn empty() -> Gauge
        ensures answer { result ≡ 0 }
    {
        Gauge { charge: 0 }
    }

    /// The charge that is kept, in milliamperes times ticks.
    pub fn charge(&self) -> u64
        ensures answer { result ≡ self.now }
        ensures top { result ≤ fullest }
    {
        self.charge
    }

    /// The count, as the chip's four registers show it.
    pub fn count(&self) -> u32
        ensures answer { result ≡ count_of self.now }
        ensures top { result ≤ 268435452 }
    {
        (4 * (32 * self.charge / 78_125)) as u32
    }

    /// A current flows for some ticks. The charge takes it whole: nothing is rounded here.
    pub fn flow(&mut self, current: Milliamps, ticks: u64)
        ensures after { self.new ≡ flowing current.0 ticks self.old }
        ensures top { self.new ≤ fullest }
    {
        let flow = u128::from(current.0.unsigned_abs()) * u128::from(ticks);
        let charge = u128::from(self.charge);
        let sum = if current >= Milliamps(0) {
            (charge + flow).min(FULLEST)
        } else {
            charge.saturating_sub(flow)
        };
        self.charge = sum as u64;
    }

    /// One byte of the count.
    pub fn byte(&self, byte: CountByte) -> u8
        ensures answer { result ≡ byte_of byte (count_of self.now) }
    {
        self.count().to_be_bytes()[byte as usize]
    }

    /// Replaces one byte of the count. The charge becomes the smallest with the new count, so what
    /// was kept beyond the count is gone.
    pub fn write(&mut self, byte: CountByte, value: u8)
        ensures after { self.new ≡ least_for (replaced byte value (count_of self.old)) }
        ensures top { self.new ≤ fullest }
    {
        let mut bytes = self.count().to_be_bytes();
        bytes[byte as usize] = byte.kept(value);
        let count = u32::from_be_bytes(bytes);
        self.charge = (78_125 * u64::from(count / 4) + 31) / 32;
    }
}

impl CountByte {
    /// What the count keeps of a value that is written to this byte.
    fn kept(self, value: u8) -> u8
        ensures answer { result ≡ kept_bits self value }
    {
        match self {
            CountByte::Ccntd3 => value % 16,
            CountByte::Ccntd2 | CountByte::Ccntd1 => value,
            CountByte::Ccntd0 => value / 4 * 4,
        }
    }
}
