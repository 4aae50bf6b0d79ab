//! Making an amount, and what it does to a reading.

ghost use Rattle.std.specs.Prelude.{◌≡◌, pos, negsuc, ◌≤ℤ◌};
ghost use Rattle.board.specs.Amount.{checked, trim_number, amount_number, checked_number};
ghost use Rattle.board.specs.Trimmed.{shifted};

use crate::amount::*;
use reading::*;

/// This amount, or a refusal where it lies outside -200 to 200 mA.
impl TryFrom<Milliamps> for TrimAmount {
    type Error = TrimFault;

    ghost try_from_gives = { λ a r. (r ≡ checked a.0) × (amount_number r ≡ checked_number a.0) };

    fn try_from(amount: Milliamps) -> Result<TrimAmount, TrimFault> {
        if !(Milliamps(-200)..=Milliamps(200)).contains(&amount) {
            return Err(TrimFault::AmountOutOfRange);
        }
        Ok(TrimAmount {
            milliamps: amount.0,
        })
    }
}

/// The milliamperes of an amount: from -200 to 200.
impl From<TrimAmount> for Milliamps {
    ghost from_gives = { λ t a. (a.0 ≡ t) × (negsuc 199 ≤ℤ a.0) × (a.0 ≤ℤ pos 200) };

    fn from(amount: TrimAmount) -> Milliamps {
        Milliamps(amount.milliamps)
    }
}

impl TrimAmount {
    /// The same reading with this amount added to its current, which is held at -16,383 and 16,383.
    pub fn shift(self, r: Reading) -> Reading
        ensures answer { result ≡ shifted self r }
    {
        Reading {
            tick: r.tick,
            vbat: r.vbat,
            vsys: r.vsys,
            dcin: r.dcin,
            cur: Milliamps((r.cur.0 + self.milliamps).clamp(-16383, 16383)),
            temp: r.temp,
        }
    }
}

/// The number by which firmware and clerks know this refusal.
impl From<TrimFault> for u8 {
    ghost from_gives = { λ f n. n ≡ trim_number f };

    fn from(fault: TrimFault) -> u8 {
        match fault {
            TrimFault::AmountOutOfRange => 14,
        }
    }
}
