//! The limits of a reading, asked in one place for every board.

ghost use Rattle.std.specs.Prelude.{◌≡◌, true};
ghost use Rattle.reading.specs.Limits.{within, limited};

use crate::*;

/// The six numbers of a reading; they lie within its limits.
impl From<Reading> for Measured {
    ghost from_gives = { λ r m. (m ≡ r) × (within m ≡ true) };

    fn from(reading: Reading) -> Measured {
        Measured {
            tick: reading.tick,
            vbat: u64::from(reading.vbat.0),
            vsys: u64::from(reading.vsys.0),
            dcin: u64::from(reading.dcin.0),
            cur: i64::from(reading.cur.0),
            temp: i64::from(reading.temp.0),
        }
    }
}

/// The reading with these numbers; one that lies outside its limits is the cause why there is none.
impl TryFrom<Measured> for Reading {
    type Error = Cause;

    ghost try_from_gives = { λ m r. r ≡ limited m };

    fn try_from(measured: Measured) -> Result<Reading, Cause> {
        let Measured {
            tick,
            vbat,
            vsys,
            dcin,
            cur,
            temp,
        } = measured;
        if tick > 1 << 40 || vbat > 6000 || vsys > 6000 || dcin > 30000 {
            return Err(Cause::OutsideLimits);
        }
        // Comparisons, as the check does not close here over ranges of signed numbers.
        if cur < -16383 || cur > 16383 || temp < -55 || temp > 200 {
            return Err(Cause::OutsideLimits);
        }
        Ok(Reading {
            tick,
            vbat: Millivolts(vbat as u16),
            vsys: Millivolts(vsys as u16),
            dcin: Millivolts(dcin as u16),
            cur: Milliamps(cur as i16),
            temp: Celsius(temp as i16),
        })
    }
}
