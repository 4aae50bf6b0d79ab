//! Drafts of settings, one setting changed at a time.

ghost use Rattle.std.specs.Prelude.{◌≡◌};
ghost use Rattle.worked_cases.specs.Drafts.{changed};

use charger::settings::*;
use reading::*;

/// Changes one setting of a draft; the others stay.
pub fn set(draft: &mut Draft, setting: Setting, value: u16)
    ensures after { draft.new ≡ changed setting value draft.old }
{
    match setting {
        Setting::VpreLo => draft.vpre_lo = Millivolts(value),
        Setting::VpreHi => draft.vpre_hi = Millivolts(value),
        Setting::Itri => draft.itri = ChargeMilliamps(value),
        Setting::Ipre => draft.ipre = ChargeMilliamps(value),
        Setting::Ifst => draft.ifst = ChargeMilliamps(value),
        Setting::IfstTerm => draft.ifst_term = Milliamps(i16::try_from(value).unwrap_or(i16::MAX)),
        Setting::VbatOvp => draft.vbat_ovp = Millivolts(value),
        Setting::VbatChg => draft.vbat_chg = Millivolts(value),
        Setting::VbatMnt => draft.vbat_mnt = Millivolts(value),
    }
}
