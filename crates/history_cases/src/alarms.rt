//! Alarms by readings and writes: the cases of `alarms.txt`.
//!
//! `alarm KIND THRESHOLD DURATION` makes the alarm of a case from two register bytes. Then each line is something that
//! happens, and behind ` = ` the bit that it should lead to: `see TICK VALUE` (a current or a temperature),
//! `threshold BYTE` or `duration BYTE`.

use crate::cases::*;
use std::alloc::{AllocError, Global};
use watch::thresholds::*;
use watch::*;
use worked_cases::watching::*;

/// An alarm of any kind.
#[derive(Clone, Copy)]
pub(crate) enum Watched {
    OverCurrent(Alarm<OverCurrent>),
    Hot(Alarm<Hot>),
    Cold(Alarm<Cold>),
}

/// What a line asks of an alarm.
#[derive(Clone, Copy)]
enum Event {
    See(u64, i64),
    Threshold(u8),
    Duration(u8),
}

/// The alarm of a case, once it is made.
impl Trial for Option<Watched> {
    fn new() -> Option<Watched> {
        None
    }

    fn agrees(&mut self, _heap: Global, line: &str) -> Result<bool, AllocError> {
        match line.strip_prefix("alarm ") {
            Some(parts) => {
                let alarm = made(parts);
                *self = alarm.or(*self);
                Ok(alarm.is_some())
            }
            None => {
                let mut after = *self;
                let agrees = tried(&mut after, line) == Some(true);
                if agrees {
                    *self = after;
                }
                Ok(agrees)
            }
        }
    }
}

/// The alarm of a line `KIND THRESHOLD DURATION`.
fn made(parts: &str) -> Option<Watched> {
    let (kind, rest) = word(parts);
    let (threshold, duration) = word(rest);
    let threshold: u8 = threshold.parse().ok()?;
    let duration = duration.parse().ok()?;
    match kind {
        "over" => Some(Watched::OverCurrent(Alarm::new(threshold.into(), duration))),
        "hot" => Some(Watched::Hot(Alarm::new(threshold.into(), duration))),
        "cold" => Some(Watched::Cold(Alarm::new(threshold.into(), duration))),
        _ => None,
    }
}

/// Whether the event of a line leads to the bit that it should.
fn tried(watched: &mut Option<Watched>, line: &str) -> Option<bool> {
    let (event, wanted) = line.split_once(" = ")?;
    let bit = watched.as_mut()?.happen(read_event(event)?)?;
    Some(bit == (wanted == "1"))
}

fn read_event(event: &str) -> Option<Event> {
    let (what, rest) = word(event);
    match what {
        "see" => {
            let (tick, value) = word(rest);
            Some(Event::See(tick.parse().ok()?, value.parse().ok()?))
        }
        "threshold" => Some(Event::Threshold(rest.parse().ok()?)),
        "duration" => Some(Event::Duration(rest.parse().ok()?)),
        _ => None,
    }
}

impl Watched {
    /// The bit after an event.
    fn happen(&mut self, event: Event) -> Option<bool> {
        match self {
            Watched::OverCurrent(alarm) => happen(alarm, event),
            Watched::Hot(alarm) => happen(alarm, event),
            Watched::Cold(alarm) => happen(alarm, event),
        }
    }
}

fn happen<T: Watching>(alarm: &mut Alarm<T>, event: Event) -> Option<bool> {
    match event {
        Event::See(tick, value) => alarm.see(&T::reading(tick, value).ok()?),
        Event::Threshold(byte) => alarm.set_threshold(T::from(byte)),
        Event::Duration(ticks) => alarm.set_duration(ticks),
    }
    Some(alarm.bit())
}
