//! What a board measures: a reading, or a blank that says why there is none.
#![tactic(auto)]

use std::marker::Model;

pub mod limits;
pub mod numbers;

/// A voltage in millivolts.
#[derive(Clone, Copy, PartialEq, Eq, PartialOrd, Ord, Debug)]
pub struct Millivolts(pub u16);

/// A measured current in milliamperes: above zero it charges the battery, below zero it discharges it.
#[derive(Clone, Copy, PartialEq, Eq, PartialOrd, Ord, Debug)]
pub struct Milliamps(pub i16);

/// A charging current in milliamperes, as a board is told to drive it: never below zero.
#[derive(Clone, Copy, PartialEq, Eq, PartialOrd, Ord, Debug)]
pub struct ChargeMilliamps(pub u16);

/// A temperature in degrees Celsius.
#[derive(Clone, Copy, PartialEq, Eq, PartialOrd, Ord, Debug)]
pub struct Celsius(pub i16);

/// One good conversion. Its limits belong to the type, so no reading outside them exists.
#[derive(Clone, Copy, PartialEq, Eq, Debug)]
pub struct Reading {
    /// When it was taken, in ticks of 250 microseconds.
    pub tick: u64,
    /// The battery's voltage.
    pub vbat: Millivolts,
    /// The system's voltage.
    pub vsys: Millivolts,
    /// The charging input's voltage.
    pub dcin: Millivolts,
    /// The battery's current.
    pub cur: Milliamps,
    /// The battery's temperature.
    pub temp: Celsius,
}

// Contracts see a reading as its six numbers.
impl Model for Reading {
    ghost use Rattle.reading.specs.declared.Measured.{Measured};

    ghost Value = { Measured };

    ghost use Rattle.reading.specs.Limits.{Within};
    ghost use Rattle.reading.specs.Readings.{measured, from_measured};

    ghost view = { measured };

    ghost invariant = { λ r. Within (measured r) };

    ghost inverse = { from_measured };
}

/// Six numbers in the columns of a reading, before anyone asked whether they lie within its limits.
#[derive(Clone, Copy, PartialEq, Eq, Debug)]
pub struct Measured {
    pub tick: u64,
    pub vbat: u64,
    pub vsys: u64,
    pub dcin: u64,
    pub cur: i64,
    pub temp: i64,
}

/// Why a conversion gave no reading.
#[derive(Clone, Copy, PartialEq, Eq, Debug)]
pub enum Cause {
    UnreadableLine = 1,
    OutsideLimits = 2,
    ShortFrame = 3,
    SilentChip = 4,
}

/// What kind of board a blank comes from.
#[derive(Clone, Copy, PartialEq, Eq, Debug)]
pub enum Kind {
    Tape = 1,
    Frames = 2,
}

/// A conversion that gave no reading: why, which one, and on what kind of board.
#[derive(Clone, Copy, PartialEq, Eq, Debug)]
pub struct Blank {
    pub cause: Cause,
    /// The line number on a tape, the names line being 1; the frame number in a dump, from 1.
    pub place: u64,
    pub kind: Kind,
}

/// Why a board did not do what it was asked.
#[derive(Clone, Copy, PartialEq, Eq, Debug)]
pub enum Fault {
    NothingWaiting,
    NoReading(Blank),
    AboveCeiling,
}
