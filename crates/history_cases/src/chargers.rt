//! Chargers by what happens to them: the cases of `charger.txt`.
//!
//! A case begins with a new charger, the standard settings and a ceiling of 500 mA; `ceiling N` and
//! `set SETTING VALUE` change these. Then each line is something that happens, and behind ` = ` the
//! code and the drive that it should lead to: `read` with the numbers of a reading, `reset on`,
//! `reset off`, `hold` or `release`.

ghost use Rattle.std.specs.Prelude.{◌≡◌, None, Ok, codes};
ghost use Rattle.std.specs.Str.{bytes_eq};

use crate::cases::*;
use crate::drafts::*;
use charger::settings::checking::*;
use charger::settings::*;
use charger::*;
use reading::*;
use std::alloc::{AllocError, Global};

/// A case as far as it has come.
#[derive(Clone, Copy)]
pub(crate) struct Charging {
    draft: Draft,
    ceiling: ChargeMilliamps,
    /// Made when the first thing happens.
    charger: Option<Charger>,
}

impl Trial for Charging {
    fn new() -> Charging {
        Charging {
            draft: Draft::standard(),
            ceiling: ChargeMilliamps(500),
            charger: None,
        }
    }

    fn agrees(&mut self, heap: Global, line: &str) -> Result<bool, AllocError> {
        match line.split_once(" = ") {
            Some((event, wanted)) => {
                let charger = self.happen(event);
                shows(heap, charger, self.ceiling, wanted)
            }
            None => Ok(self.prepare(line).is_some()),
        }
    }
}

impl Charging {
    /// Another ceiling or another setting, before anything happens.
    fn prepare(&mut self, line: &str) -> Option<()> {
        match line.strip_prefix("ceiling ") {
            Some(ceiling) => {
                self.ceiling = ChargeMilliamps(ceiling.parse::<u16>().ok()?);
                Some(())
            }
            None => change(&mut self.draft, line),
        }
    }

    fn happen(&mut self, event: &str) -> Option<Charger> {
        let mut charger = self.present()?;
        match event {
            "reset on" => charger.set_reset(true),
            "reset off" => charger.set_reset(false),
            "hold" => charger.hold(),
            "release" => charger.release(),
            _ => charger.see(&reading(event.strip_prefix("read ")?)?),
        }
        self.charger = Some(charger);
        Some(charger)
    }

    fn present(&self) -> Option<Charger> {
        match self.charger {
            Some(charger) => Some(charger),
            None => Some(Charger::new(Settings::try_from(self.draft).ok()?)),
        }
    }
}

/// Whether a charger shows what a case wants. Where an event was not understood there is none, and a case may want that.
fn shows(
    heap: Global,
    charger: Option<Charger>,
    ceiling: ChargeMilliamps,
    wanted: &str,
) -> Result<bool, AllocError>
    ensures none { charger ≡ None → result ≡ Ok (bytes_eq wanted.now (codes "not understood")) }
{
    match charger {
        Some(charger) => Ok(shown(heap, charger, ceiling)?.as_str() == wanted),
        None => Ok(wanted == "not understood"),
    }
}

/// The code and the drive of a charger, as a case writes them.
fn shown(heap: Global, charger: Charger, ceiling: ChargeMilliamps) -> Result<String, AllocError> {
    let code = u8::from(charger.code());
    let drive = charger.drive(ceiling).0;
    format!(in heap; "{code:02X} {drive}")
}

/// The reading with the numbers of a text: tick, vbat, vsys, dcin, cur, temp.
fn reading(text: &str) -> Option<Reading> {
    let mut words = text.split(' ');
    let measured = Measured {
        tick: words.next()?.parse().ok()?,
        vbat: words.next()?.parse().ok()?,
        vsys: words.next()?.parse().ok()?,
        dcin: words.next()?.parse().ok()?,
        cur: words.next()?.parse().ok()?,
        temp: words.next()?.parse().ok()?,
    };
    match words.next() {
        Some(_) => None,
        None => Reading::try_from(measured).ok(),
    }
}
