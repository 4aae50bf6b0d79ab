//! Alarms, by the readings that they see.

use std::io;
use watch::thresholds::*;
use watch::*;
use worked_cases::tally::*;
use worked_cases::watching::*;

/// The bytes of an alarm, and the readings that it sees.
#[derive(Clone, Copy)]
struct Case {
    title: &'static str,
    threshold: u8,
    duration: u8,
    sees: [Seen; 2],
}

/// A reading, by its tick and the watched quantity, and whether the alarm should stand after it.
#[derive(Clone, Copy)]
struct Seen {
    tick: u64,
    value: i64,
    bit: bool,
}

const CURRENTS: [Case; 9] = [
    Case {
        title: "6,250 mA at 7Dh",
        threshold: 0x7d,
        duration: 0,
        sees: [
            Seen {
                tick: 0,
                value: -6250,
                bit: false,
            },
            Seen {
                tick: 1,
                value: -6250,
                bit: false,
            },
        ],
    },
    Case {
        title: "6,251 mA at 7Dh",
        threshold: 0x7d,
        duration: 0,
        sees: [
            Seen {
                tick: 0,
                value: -6251,
                bit: true,
            },
            Seen {
                tick: 1,
                value: -6251,
                bit: true,
            },
        ],
    },
    Case {
        title: "one tick short of 64h",
        threshold: 0x7d,
        duration: 0x64,
        sees: [
            Seen {
                tick: 1000,
                value: -6251,
                bit: false,
            },
            Seen {
                tick: 1099,
                value: -6251,
                bit: false,
            },
        ],
    },
    Case {
        title: "exactly 64h",
        threshold: 0x7d,
        duration: 0x64,
        sees: [
            Seen {
                tick: 1000,
                value: -6251,
                bit: false,
            },
            Seen {
                tick: 1100,
                value: -6251,
                bit: true,
            },
        ],
    },
    Case {
        title: "one tick short of FFh",
        threshold: 0,
        duration: 0xff,
        sees: [
            Seen {
                tick: 0,
                value: -1,
                bit: false,
            },
            Seen {
                tick: 254,
                value: -1,
                bit: false,
            },
        ],
    },
    Case {
        title: "exactly FFh",
        threshold: 0,
        duration: 0xff,
        sees: [
            Seen {
                tick: 0,
                value: -1,
                bit: false,
            },
            Seen {
                tick: 255,
                value: -1,
                bit: true,
            },
        ],
    },
    Case {
        title: "no discharge at 00h",
        threshold: 0,
        duration: 0,
        sees: [
            Seen {
                tick: 0,
                value: 0,
                bit: false,
            },
            Seen {
                tick: 1,
                value: 16383,
                bit: false,
            },
        ],
    },
    Case {
        title: "FFh is 12,750 mA",
        threshold: 0xff,
        duration: 0,
        sees: [
            Seen {
                tick: 0,
                value: -12750,
                bit: false,
            },
            Seen {
                tick: 1,
                value: -12751,
                bit: true,
            },
        ],
    },
    Case {
        title: "nothing is latched",
        threshold: 0x7d,
        duration: 0,
        sees: [
            Seen {
                tick: 0,
                value: -6251,
                bit: true,
            },
            Seen {
                tick: 1,
                value: -6250,
                bit: false,
            },
        ],
    },
];

const TEMPERATURES: [Case; 4] = [
    Case {
        title: "60 degrees at 8Ch",
        threshold: 0x8c,
        duration: 0x28,
        sees: [
            Seen {
                tick: 0,
                value: 60,
                bit: false,
            },
            Seen {
                tick: 40,
                value: 60,
                bit: false,
            },
        ],
    },
    Case {
        title: "61 degrees at 8Ch",
        threshold: 0x8c,
        duration: 0x28,
        sees: [
            Seen {
                tick: 0,
                value: 61,
                bit: false,
            },
            Seen {
                tick: 40,
                value: 61,
                bit: true,
            },
        ],
    },
    Case {
        title: "one tick short of 28h",
        threshold: 0x8c,
        duration: 0x28,
        sees: [
            Seen {
                tick: 0,
                value: 61,
                bit: false,
            },
            Seen {
                tick: 39,
                value: 61,
                bit: false,
            },
        ],
    },
    Case {
        title: "200 degrees at 00h",
        threshold: 0,
        duration: 0,
        sees: [
            Seen {
                tick: 0,
                value: 200,
                bit: false,
            },
            Seen {
                tick: 1,
                value: 200,
                bit: false,
            },
        ],
    },
];

/// Whether an alarm stands after each of the readings as it should.
fn stands<T: Watching>(case: &Case) -> bool {
    let mut alarm = Alarm::new(T::from(case.threshold), case.duration);
    for seen in &case.sees {
        let Ok(reading) = T::reading(seen.tick, seen.value) else {
            return false;
        };
        alarm.see(&reading);
        if alarm.bit() != seen.bit {
            return false;
        }
    }
    true
}

/// Tries cases of one kind of alarm.
fn try_all<T: Watching>(rt: &HostRuntime, tally: &mut Tally, cases: &[Case]) -> io::Result<()> {
    for case in cases {
        if !tally.right(stands::<T>(case)) {
            let title = case.title;
            println!(rt; "alarms, {title}: wrong")?;
        }
    }
    Ok(())
}

pub(crate) fn check(rt: &HostRuntime) -> io::Result<()> {
    let mut tally = Tally::default();
    try_all::<OverCurrent>(rt, &mut tally, &CURRENTS)?;
    try_all::<Hot>(rt, &mut tally, &TEMPERATURES)?;
    println!(rt; "alarms: {tally}")
}
