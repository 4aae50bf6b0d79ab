//! The count, by flows and writes.

ghost use Rattle.std.specs.Prelude.{◌≡◌, true, ◌&&◌, reverse, ◌==◌};
ghost use Rattle.gauge.specs.Charges.{kept};
ghost use Rattle.gauge.specs.Counts.{count_of};

use gauge::Event::*;
use gauge::*;
use reading::*;

/// What happens to a gauge, and the charge and the count that it should then have.
#[derive(Clone, Copy)]
pub struct Count {
    pub title: &'static str,
    pub events: &'static [Event],
    pub charge: u64,
    pub count: u32,
}

impl Count {
    /// A gauge to which all this has happened.
    pub fn gauge(&self) -> Gauge
        ensures answer { result ≡ kept (reverse self.now.events.now) }
    {
        Gauge::after(self.events)
    }

    /// Whether it has the charge and the count that it should.
    pub fn holds(&self) -> bool
        ensures answer { result ≡ (kept (reverse self.now.events.now) == self.now.charge && count_of (kept (reverse self.now.events.now)) == self.now.count) }
    {
        let gauge = self.gauge();
        gauge.charge() == self.charge && gauge.count() == self.count
    }
}

pub const COUNTS: [Count; 18] = [
    Count {
        title: "a new gauge",
        events: &[],
        charge: 0,
        count: 0,
    },
    Count {
        title: "one short of a step",
        events: &[Flowed(Milliamps(2441), 1)],
        charge: 2441,
        count: 0,
    },
    Count {
        title: "a step",
        events: &[Flowed(Milliamps(2442), 1)],
        charge: 2442,
        count: 4,
    },
    Count {
        title: "a step in two parts",
        events: &[Flowed(Milliamps(1221), 1), Flowed(Milliamps(1221), 1)],
        charge: 2442,
        count: 4,
    },
    Count {
        title: "half an ampere for a second",
        events: &[Flowed(Milliamps(500), 4000)],
        charge: 2_000_000,
        count: 0xccc,
    },
    Count {
        title: "a discharge",
        events: &[Flowed(Milliamps(500), 4000), Flowed(Milliamps(-250), 4000)],
        charge: 1_000_000,
        count: 0x664,
    },
    Count {
        title: "no tick",
        events: &[Flowed(Milliamps(16383), 0)],
        charge: 0,
        count: 0,
    },
    Count {
        title: "stops at 0",
        events: &[Flowed(Milliamps(1), 5), Flowed(Milliamps(-1), 6)],
        charge: 0,
        count: 0,
    },
    Count {
        title: "goes on from 0",
        events: &[
            Flowed(Milliamps(-16383), 1_099_511_627_776),
            Flowed(Milliamps(1), 7),
        ],
        charge: 7,
        count: 0,
    },
    Count {
        title: "stops at the top",
        events: &[Flowed(Milliamps(16383), 1_099_511_627_776)],
        charge: 163_839_999_999,
        count: 0xfff_fffc,
    },
    Count {
        title: "goes on from the top",
        events: &[
            Flowed(Milliamps(16383), 1_099_511_627_776),
            Flowed(Milliamps(-1), 9),
        ],
        charge: 163_839_999_990,
        count: 0xfff_fffc,
    },
    Count {
        title: "4 to the lowest byte",
        events: &[Written(CountByte::Ccntd0, 4)],
        charge: 2442,
        count: 4,
    },
    Count {
        title: "the low two bits are dropped",
        events: &[Written(CountByte::Ccntd0, 7)],
        charge: 2442,
        count: 4,
    },
    Count {
        title: "the low four bits are kept",
        events: &[Written(CountByte::Ccntd3, 0xf1)],
        charge: 10_240_000_000,
        count: 0x100_0000,
    },
    Count {
        title: "the second byte",
        events: &[Written(CountByte::Ccntd2, 0x01)],
        charge: 40_000_000,
        count: 0x1_0000,
    },
    Count {
        title: "the third byte",
        events: &[Written(CountByte::Ccntd1, 0x01)],
        charge: 156_250,
        count: 0x100,
    },
    Count {
        title: "the same byte again drops the rest",
        events: &[Flowed(Milliamps(3000), 1), Written(CountByte::Ccntd0, 4)],
        charge: 2442,
        count: 4,
    },
    Count {
        title: "bytes that are not written stay",
        events: &[
            Written(CountByte::Ccntd2, 0x01),
            Written(CountByte::Ccntd0, 0x08),
            Written(CountByte::Ccntd2, 0x00),
        ],
        charge: 4883,
        count: 8,
    },
];

/// Whether a full gauge that is discharged by 3 mA for ten weeks, one reading a second, shows after each day what exact
/// arithmetic says.
pub fn ten_weeks() -> bool
    ensures answer { result ≡ true }
{
    let mut gauge = Gauge::empty();
    gauge.flow(Milliamps(16383), 1_099_511_627_776);
    let mut exact: u64 = 163_839_999_999;
    for _day in 0..70u8 {
        for _second in 0..86_400u32 {
            gauge.flow(Milliamps(-3), 4000);
        }
        exact = exact.saturating_sub(3 * 4000 * 86_400);
        let count = 4 * (u128::from(exact) * 32 / 78_125);
        if u128::from(gauge.count()) != count {
            return false;
        }
    }
    exact == 91_263_999_999
}
