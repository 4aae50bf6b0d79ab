//! Runs worked cases through the count, the alarms, the settings and the charger, and says which go wrong.
#![tactic(auto)]

use alarms::*;
use charger::settings::*;
use chargers::*;
use std::io;

mod alarms;
mod cases;
mod chargers;
mod counts;
mod drafts;
mod rows;

fn main(rt: HostRuntime) -> io::Result<()> {
    counts::check(&rt)?;
    rows::check(&rt)?;
    cases::check::<Draft>(&rt, "settings")?;
    cases::check::<Option<Watched>>(&rt, "alarms")?;
    cases::check::<Charging>(&rt, "charger")
}
