//! The charger: its settings, the codes that it walks through, and what leads it from one to the next.
#![tactic(auto)]

use crate::settings::*;
use reading::*;
use watch::thresholds::*;
use watch::*;

pub mod codes;
mod conditions;
pub mod promises;
mod rules;
pub mod settings;
pub mod shown;
pub mod steps;
mod timing;

/// Where the charger is, by the chip's name and number (register CHG_STATE).
#[derive(Clone, Copy, PartialEq, Eq, Debug)]
pub enum Code {
    /// Nothing is charged.
    Suspend = 0x00,
    TrickleCharge = 0x01,
    PreCharge = 0x02,
    FastCharge = 0x03,
    /// One reading long: the battery's voltage decides where charging begins.
    BatDet = 0x0d,
    /// Nearly full, and still charging.
    TopOff = 0x0e,
    /// Full.
    Done = 0x0f,
    /// Too cold or too hot while pre-charging.
    TempErr1 = 0x10,
    /// The same while fast charging or topping off, with or without battery assist.
    TempErr2 = 0x11,
    /// The same while full, with or without battery assist.
    TempErr3 = 0x12,
    /// The same while suspended or detecting the battery.
    TempErr4 = 0x13,
    /// The same while trickle charging.
    TempErr5 = 0x14,
    /// The battery helps to feed the system while fast charging.
    BattAssist1 = 0x30,
    /// The same while topping off.
    BattAssist2 = 0x31,
    /// The same while full.
    BattAssist3 = 0x32,
    /// A clock ran out. Only a charger reset leads on.
    BattError = 0x7f,
}

/// Counts ticks from a reading on.
#[derive(Clone, Copy, PartialEq, Eq, Default, Debug)]
pub struct Clock {
    /// The tick of the reading that started it; `None` where none did yet.
    since: Option<u64>,
}

/// How long the charger may take for what it does.
#[derive(Clone, Copy, PartialEq, Eq, Default, Debug)]
pub struct Clocks {
    /// For trickle and pre-charging together.
    pre: Clock,
    /// For fast charging.
    fast: Clock,
    /// For topping off.
    top: Clock,
}

/// The charger of one battery.
#[derive(Clone, Copy)]
pub struct Charger {
    settings: Draft,
    code: Code,
    /// The charger reset bit (CHGRST) as it was written last.
    reset: bool,
    /// Somebody holds the charger.
    held: bool,
    /// The charging input is good (DCINOK).
    input_good: bool,
    /// The battery is at over-voltage (VBAT_OV).
    over_voltage: bool,
    /// How long the battery has been too hot.
    hot: Run<TooHot>,
    clocks: Clocks,
}
