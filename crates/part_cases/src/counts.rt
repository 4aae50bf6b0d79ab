//! The count, by flows and writes.

use std::io;
use worked_cases::counts::*;
use worked_cases::tally::*;

// Alike in `history_cases`, but for what holds: shared, it would be a public function that prints and promises nothing.
pub(crate) fn check(rt: &HostRuntime) -> io::Result<()> {
    let mut tally = Tally::default();
    for case in COUNTS {
        if !tally.right(case.holds()) {
            let title = case.title;
            println!(rt; "count, {title}: wrong")?;
        }
    }
    if !tally.right(ten_weeks()) {
        println!(rt; "count, ten weeks: wrong")?;
    }
    println!(rt; "count: {tally}")
}
