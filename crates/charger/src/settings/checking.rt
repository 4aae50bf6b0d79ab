//! The check of a draft, and the settings to start from.

ghost use Rattle.std.specs.Prelude.{◌≡◌, Ok};
ghost use Rattle.charger.specs.Checks.{in_range, first_bad, checked, standard_draft, setting_number, fault_number, ACheckTellsWhatIsWrong};

use crate::settings::*;
use reading::*;

/// The settings in the order of the check.
const SETTINGS: [Setting; 9] = [
    Setting::VpreLo,
    Setting::VpreHi,
    Setting::Itri,
    Setting::Ipre,
    Setting::Ifst,
    Setting::IfstTerm,
    Setting::VbatOvp,
    Setting::VbatChg,
    Setting::VbatMnt,
];

impl Draft {
    /// The settings that a handheld has before anybody sets others.
    pub fn standard() -> Draft
        ensures answer { result ≡ standard_draft }
    {
        Draft {
            vpre_lo: Millivolts(2500),
            vpre_hi: Millivolts(3000),
            itri: ChargeMilliamps(50),
            ipre: ChargeMilliamps(200),
            ifst: ChargeMilliamps(500),
            ifst_term: Milliamps(50),
            vbat_ovp: Millivolts(4400),
            vbat_chg: Millivolts(4200),
            vbat_mnt: Millivolts(4100),
        }
    }

    /// Whether a setting lies within its range.
    fn has_in_range(&self, setting: Setting) -> bool
        ensures answer { result ≡ in_range setting self.now }
    {
        match setting {
            Setting::VpreLo => (Millivolts(2100)..=Millivolts(3600)).contains(&self.vpre_lo),
            Setting::VpreHi => (Millivolts(2100)..=Millivolts(3600)).contains(&self.vpre_hi),
            Setting::Itri => (ChargeMilliamps(20)..=ChargeMilliamps(100)).contains(&self.itri),
            Setting::Ipre => (ChargeMilliamps(100)..=ChargeMilliamps(500)).contains(&self.ipre),
            Setting::Ifst => (ChargeMilliamps(100)..=ChargeMilliamps(2000)).contains(&self.ifst),
            Setting::IfstTerm => (Milliamps(10)..=Milliamps(200)).contains(&self.ifst_term),
            Setting::VbatOvp => (Millivolts(4400)..=Millivolts(4800)).contains(&self.vbat_ovp),
            Setting::VbatChg => (Millivolts(3720)..=Millivolts(4340)).contains(&self.vbat_chg),
            Setting::VbatMnt => (Millivolts(3600)..=Millivolts(4340)).contains(&self.vbat_mnt),
        }
    }

    /// The first of some settings that lies outside its range.
    fn first_out_of_range(&self, settings: &[Setting]) -> Option<Setting>
        ensures answer { result ≡ first_bad self.now settings.now }
    {
        settings
            .iter()
            .copied()
            .find(|&setting| !self.has_in_range(setting))
    }
}

/// The settings of a draft, checked: ranges first, and then the order of the voltages.
impl TryFrom<Draft> for Settings {
    type Error = SettingsFault;

    ghost try_from_gives = { λ draft r. r ≡ checked draft };

    fn try_from(draft: Draft) -> Result<Settings, SettingsFault> {
        if let Some(setting) = draft.first_out_of_range(&SETTINGS) {
            return Err(SettingsFault::OutOfRange(setting));
        }
        if draft.vpre_lo > draft.vpre_hi || draft.vbat_mnt >= draft.vbat_chg {
            return Err(SettingsFault::OutOfOrder);
        }
        Ok(Settings { draft })
    }
}

impl Settings {
    /// The standard settings. They would pass the check, so nobody has to handle a refusal of them.
    pub fn standard() -> Settings
        ensures answer { result ≡ standard_draft }
        ensures passes { checked result ≡ Ok result }
    {
        Settings {
            draft: Draft::standard(),
        }
    }

    /// The numbers that were checked. They pass the check.
    pub fn values(&self) -> Draft
        ensures answer { result ≡ self.now }
        ensures passes { checked result ≡ Ok result }
    {
        self.draft
    }
}

/// A check names the first setting that is out of its range, or says that the voltages are out of order, or passes, each
/// exactly where it should.
pub fn a_check_tells_what_is_wrong()
    ensures law { ACheckTellsWhatIsWrong }
{}

/// 1 to 9, in the order of the check.
impl From<Setting> for u8 {
    ghost from_gives = { λ s n. n ≡ setting_number s };

    fn from(setting: Setting) -> u8 {
        setting as u8
    }
}

/// 10 for a setting out of its range, 11 for voltages out of order.
impl From<SettingsFault> for u8 {
    ghost from_gives = { λ f n. n ≡ fault_number f };

    fn from(fault: SettingsFault) -> u8 {
        match fault {
            SettingsFault::OutOfRange(_) => 10,
            SettingsFault::OutOfOrder => 11,
        }
    }
}
