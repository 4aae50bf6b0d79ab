//! Drafts of settings and their check: the cases of `settings.txt`.
//!
//! A case begins with the standard draft. `set SETTING VALUE` changes it, and `check = ` has the number of the refusal,
//! 0 where there is none, and behind 10 the number of the setting.

use crate::cases::*;
use charger::settings::checking::*;
use charger::settings::*;
use std::alloc::{AllocError, Global};
use worked_cases::drafts::*;

/// A draft on its way to the check.
impl Trial for Draft {
    fn new() -> Draft {
        Draft::standard()
    }

    fn agrees(&mut self, heap: Global, line: &str) -> Result<bool, AllocError> {
        match line.strip_prefix("check = ") {
            Some(wanted) => {
                let came = verdict(heap, *self)?;
                Ok(came.as_str() == wanted)
            }
            None => Ok(change(self, line).is_some()),
        }
    }
}

/// What the check says of a draft, as a case writes it.
fn verdict(heap: Global, draft: Draft) -> Result<String, AllocError> {
    match Settings::try_from(draft) {
        Ok(_) => format!(in heap; "0"),
        Err(fault) => {
            let number = u8::from(fault);
            match fault {
                SettingsFault::OutOfRange(setting) => {
                    let setting = u8::from(setting);
                    format!(in heap; "{number} {setting}")
                }
                SettingsFault::OutOfOrder => format!(in heap; "{number}"),
            }
        }
    }
}

/// Changes one setting by a line `set SETTING VALUE`.
pub(crate) fn change(draft: &mut Draft, line: &str) -> Option<()> {
    let (name, value) = word(line.strip_prefix("set ")?);
    let (setting, value) = (named(name)?, value.parse().ok()?);
    if setting == Setting::IfstTerm {
        i16::try_from(value).ok()?;
    }
    set(draft, setting, value);
    Some(())
}

/// The setting with this name. A function, since the names are those of a file of cases, of which `charger` knows nothing.
fn named(name: &str) -> Option<Setting> {
    match name {
        "vpre_lo" => Some(Setting::VpreLo),
        "vpre_hi" => Some(Setting::VpreHi),
        "itri" => Some(Setting::Itri),
        "ipre" => Some(Setting::Ipre),
        "ifst" => Some(Setting::Ifst),
        "ifst_term" => Some(Setting::IfstTerm),
        "vbat_ovp" => Some(Setting::VbatOvp),
        "vbat_chg" => Some(Setting::VbatChg),
        "vbat_mnt" => Some(Setting::VbatMnt),
        _ => None,
    }
}
