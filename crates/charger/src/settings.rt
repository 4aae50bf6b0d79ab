//! Nine settings, as somebody wrote them down, and as they were checked.

use reading::*;
use std::marker::Model;

pub mod checking;

/// Settings that nobody has checked.
#[derive(Clone, Copy, PartialEq, Eq, Debug)]
pub struct Draft {
    /// Below this battery voltage the charger trickles.
    pub vpre_lo: Millivolts,
    /// Below this it pre-charges, and from here on it charges fast.
    pub vpre_hi: Millivolts,
    /// The trickle current.
    pub itri: ChargeMilliamps,
    /// The pre-charge current.
    pub ipre: ChargeMilliamps,
    /// The fast-charge current.
    pub ifst: ChargeMilliamps,
    /// A current at most this says that the battery is nearly full.
    pub ifst_term: Milliamps,
    /// Above this battery voltage there is over-voltage.
    pub vbat_ovp: Millivolts,
    /// The voltage of a full battery.
    pub vbat_chg: Millivolts,
    /// Below this a full battery is charged again.
    pub vbat_mnt: Millivolts,
}

/// Settings within their ranges and in order: a draft that passed the check, or the standard settings.
#[derive(Drop)]
pub struct Settings {
    draft: Draft,
}

// Contracts see settings as their draft, which passes the check.
impl Model for Settings {
    ghost use Rattle.std.specs.Prelude.{◌≡◌, Ok};
    ghost use Rattle.charger.specs.declared.settings.Draft.{Draft};
    ghost use Rattle.charger.specs.Checks.{checked};

    ghost Value = { Draft };

    ghost view = { λ s. s.draft };

    ghost invariant = { λ s. checked s.draft ≡ Ok s.draft };
}

/// A setting, by its number from 1.
#[derive(Clone, Copy, PartialEq, Eq, Debug)]
pub enum Setting {
    VpreLo = 1,
    VpreHi = 2,
    Itri = 3,
    Ipre = 4,
    Ifst = 5,
    IfstTerm = 6,
    VbatOvp = 7,
    VbatChg = 8,
    VbatMnt = 9,
}

/// Why a draft was refused.
#[derive(Clone, Copy, PartialEq, Eq, Debug)]
pub enum SettingsFault {
    /// The first setting that lies outside its range.
    OutOfRange(Setting),
    /// `vpre_lo` above `vpre_hi`, or `vbat_mnt` not below `vbat_chg`.
    OutOfOrder,
}
