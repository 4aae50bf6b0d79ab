//! The row of three alarms: what it starts with, and that a change touches one alarm.

use std::io;
use watch::row::*;
use watch::thresholds::*;
use worked_cases::tally::*;

pub(crate) fn check(rt: &HostRuntime) -> io::Result<()> {
    let mut tally = Tally::default();
    let mut row = Row::new();
    tally.right(bytes_of(&row) == [(0x7d, 0x64), (0x5e, 0x8c), (0x4e, 0xa5)]);
    row.set_threshold(Level::Second, OverCurrent::from(0x10));
    tally.right(bytes_of(&row) == [(0x7d, 0x64), (0x10, 0x8c), (0x4e, 0xa5)]);
    row.set_duration(Level::Third, 7);
    tally.right(bytes_of(&row) == [(0x7d, 0x64), (0x10, 0x8c), (0x4e, 7)]);
    row.set_threshold(Level::First, OverCurrent::from(0xff));
    tally.right(bytes_of(&row) == [(0xff, 0x64), (0x10, 0x8c), (0x4e, 7)]);
    println!(rt; "row: {tally}")
}

/// The bytes of each alarm: its threshold's and its duration.
fn bytes_of(row: &Row) -> [(u8, u8); 3] {
    [Level::First, Level::Second, Level::Third].map(|level| {
        let alarm = row.alarm(level);
        (u8::from(alarm.threshold()), alarm.duration())
    })
}
