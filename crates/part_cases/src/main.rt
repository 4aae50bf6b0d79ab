//! Runs worked cases through the count, the alarms and the settings, and says which go wrong.
#![tactic(auto)]

use std::io;

mod counts;
mod drafts;
mod watches;

fn main(rt: HostRuntime) -> io::Result<()> {
    counts::check(&rt)?;
    watches::check(&rt)?;
    drafts::check(&rt)
}
