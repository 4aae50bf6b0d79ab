//! The count, by flows and writes, and its four bytes.

use gauge::Event::*;
use gauge::*;
use std::io;
use worked_cases::counts::*;
use worked_cases::tally::*;

/// What a write keeps of the bits of the two outer bytes.
const BITS: [Count; 2] = [
    Count {
        title: "all four low bits are kept",
        events: &[Written(CountByte::Ccntd3, 0xff)],
        charge: 153_600_000_000,
        count: 0xf00_0000,
    },
    Count {
        title: "the six high bits are kept",
        events: &[Written(CountByte::Ccntd0, 0xff)],
        charge: 153_809,
        count: 0xfc,
    },
];

// Alike in `part_cases`, but for what holds: shared, it would be a public function that prints and promises nothing.
pub(crate) fn check(rt: &HostRuntime) -> io::Result<()> {
    let mut tally = Tally::default();
    for case in COUNTS.iter().chain(&BITS) {
        if !tally.right(case.holds() && shows(case.gauge(), case.count)) {
            let title = case.title;
            println!(rt; "count, {title}: wrong")?;
        }
    }
    if !tally.right(ten_weeks()) {
        println!(rt; "count, ten weeks: wrong")?;
    }
    println!(rt; "count: {tally}")
}

/// Whether the four bytes of a gauge, the highest first, are those of this count.
fn shows(gauge: Gauge, count: u32) -> bool {
    let bytes = [
        CountByte::Ccntd3,
        CountByte::Ccntd2,
        CountByte::Ccntd1,
        CountByte::Ccntd0,
    ];
    bytes.map(|byte| gauge.byte(byte)) == count.to_be_bytes()
}
