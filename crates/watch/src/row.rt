//! The three over-current alarms of the chip.

ghost use Rattle.std.specs.Prelude.{◌≡◌, false, [], ◌∷◌, map, length, None};
ghost use Rattle.watch.specs.Levels.{over_current};
ghost use Rattle.watch.specs.Rows.{IsAt, ChangedAt};
ghost use Rattle.watch.specs.Rule.{sensed, rethresholded, retimed};

use crate::thresholds::*;
use crate::*;
use std::marker::Model;

/// One of the three alarms.
#[derive(Clone, Copy, PartialEq, Eq, Debug)]
pub enum Level {
    First,
    Second,
    Third,
}

/// The row of alarms.
#[derive(Clone, Copy)]
pub struct Row {
    alarms: [Alarm<OverCurrent>; 3],
}

// Contracts see it as its alarms.
impl Model for Row {
    ghost use Rattle.std.specs.Prelude.{◌≡◌, ℕ, List, length};
    ghost use Rattle.watch.specs.declared.Alarm.{Alarm as Kept};

    ghost Value = { List (Kept ℕ) };

    ghost view = { λ r. r.alarms };

    ghost invariant = { λ r. length r.alarms ≡ 3 };

    ghost inverse = { λ l. record { alarms = l } };
}

impl Row {
    /// The row with the chip's own thresholds, 6,250, 4,700 and 3,900 mA, and durations.
    pub fn new() -> Row
        ensures thresholds { map (λ a. a.run.threshold) result ≡ 6250 ∷ 4700 ∷ 3900 ∷ [] }
        ensures durations { map (λ a. a.duration) result ≡ 100 ∷ 140 ∷ 165 ∷ [] }
        ensures runs { map (λ a. a.run.first) result ≡ None ∷ None ∷ None ∷ [] }
        ensures newest { map (λ a. a.run.last) result ≡ 0 ∷ 0 ∷ 0 ∷ [] }
        ensures bits { map (λ a. a.bit) result ≡ false ∷ false ∷ false ∷ [] }
    {
        let first = Alarm::new(OverCurrent::from(0x7d), 0x64);
        let second = Alarm::new(OverCurrent::from(0x5e), 0x8c);
        let third = Alarm::new(OverCurrent::from(0x4e), 0xa5);
        Row {
            alarms: [first, second, third],
        }
    }

    /// One good reading, which all three see.
    pub fn see(&mut self, reading: &Reading)
        ensures after { self.new ≡ map (sensed over_current reading.now) self.old }
    {
        for alarm in &mut self.alarms {
            alarm.see(reading);
        }
    }

    /// Another threshold for one alarm; the other two stay.
    pub fn set_threshold(&mut self, level: Level, threshold: OverCurrent)
        ensures after { ChangedAt level (rethresholded threshold) self.old self.new }
    {
        self.alarms[level as usize].set_threshold(threshold);
    }

    /// Another duration for one alarm; the other two stay.
    pub fn set_duration(&mut self, level: Level, duration: u8)
        ensures after { ChangedAt level (retimed duration) self.old self.new }
    {
        self.alarms[level as usize].set_duration(duration);
    }

    /// One of the alarms, to look at.
    pub fn alarm(&self, level: Level) -> Alarm<OverCurrent>
        ensures answer { IsAt level self.now result }
        ensures three { length self.now ≡ 3 }
    {
        self.alarms[level as usize]
    }
}
