//! Drafts of settings, one number changed at a time.

use charger::settings::*;
use std::io;
use worked_cases::drafts::*;
use worked_cases::tally::*;

/// A standard draft with one setting changed, and the number of its refusal, if it is refused. A
/// `SettingsFault` would name the setting of each case a second time, and the number would go untried.
#[derive(Clone, Copy)]
struct Case {
    setting: Setting,
    value: u16,
    refusal: Option<u8>,
}

const CASES: [Case; 40] = [
    Case {
        setting: Setting::VpreLo,
        value: 2099,
        refusal: Some(10),
    },
    Case {
        setting: Setting::VpreLo,
        value: 2100,
        refusal: None,
    },
    Case {
        setting: Setting::VpreLo,
        value: 3000,
        refusal: None,
    },
    Case {
        setting: Setting::VpreLo,
        value: 3001,
        refusal: Some(11),
    },
    Case {
        setting: Setting::VpreLo,
        value: 3600,
        refusal: Some(11),
    },
    Case {
        setting: Setting::VpreLo,
        value: 3601,
        refusal: Some(10),
    },
    Case {
        setting: Setting::VpreHi,
        value: 2099,
        refusal: Some(10),
    },
    Case {
        setting: Setting::VpreHi,
        value: 2100,
        refusal: Some(11),
    },
    Case {
        setting: Setting::VpreHi,
        value: 2500,
        refusal: None,
    },
    Case {
        setting: Setting::VpreHi,
        value: 3600,
        refusal: None,
    },
    Case {
        setting: Setting::VpreHi,
        value: 3601,
        refusal: Some(10),
    },
    Case {
        setting: Setting::Itri,
        value: 19,
        refusal: Some(10),
    },
    Case {
        setting: Setting::Itri,
        value: 20,
        refusal: None,
    },
    Case {
        setting: Setting::Itri,
        value: 100,
        refusal: None,
    },
    Case {
        setting: Setting::Itri,
        value: 101,
        refusal: Some(10),
    },
    Case {
        setting: Setting::Ipre,
        value: 99,
        refusal: Some(10),
    },
    Case {
        setting: Setting::Ipre,
        value: 100,
        refusal: None,
    },
    Case {
        setting: Setting::Ipre,
        value: 500,
        refusal: None,
    },
    Case {
        setting: Setting::Ipre,
        value: 501,
        refusal: Some(10),
    },
    Case {
        setting: Setting::Ifst,
        value: 99,
        refusal: Some(10),
    },
    Case {
        setting: Setting::Ifst,
        value: 100,
        refusal: None,
    },
    Case {
        setting: Setting::Ifst,
        value: 2000,
        refusal: None,
    },
    Case {
        setting: Setting::Ifst,
        value: 2001,
        refusal: Some(10),
    },
    Case {
        setting: Setting::IfstTerm,
        value: 9,
        refusal: Some(10),
    },
    Case {
        setting: Setting::IfstTerm,
        value: 10,
        refusal: None,
    },
    Case {
        setting: Setting::IfstTerm,
        value: 200,
        refusal: None,
    },
    Case {
        setting: Setting::IfstTerm,
        value: 201,
        refusal: Some(10),
    },
    Case {
        setting: Setting::VbatOvp,
        value: 4399,
        refusal: Some(10),
    },
    Case {
        setting: Setting::VbatOvp,
        value: 4400,
        refusal: None,
    },
    Case {
        setting: Setting::VbatOvp,
        value: 4800,
        refusal: None,
    },
    Case {
        setting: Setting::VbatOvp,
        value: 4801,
        refusal: Some(10),
    },
    Case {
        setting: Setting::VbatChg,
        value: 3719,
        refusal: Some(10),
    },
    Case {
        setting: Setting::VbatChg,
        value: 4100,
        refusal: Some(11),
    },
    Case {
        setting: Setting::VbatChg,
        value: 4101,
        refusal: None,
    },
    Case {
        setting: Setting::VbatChg,
        value: 4340,
        refusal: None,
    },
    Case {
        setting: Setting::VbatChg,
        value: 4341,
        refusal: Some(10),
    },
    Case {
        setting: Setting::VbatMnt,
        value: 3599,
        refusal: Some(10),
    },
    Case {
        setting: Setting::VbatMnt,
        value: 3600,
        refusal: None,
    },
    Case {
        setting: Setting::VbatMnt,
        value: 4199,
        refusal: None,
    },
    Case {
        setting: Setting::VbatMnt,
        value: 4200,
        refusal: Some(11),
    },
];

/// Whether the check says of this draft what it should; a refusal by range names the setting.
fn agrees(case: &Case) -> bool {
    let mut draft = Draft::standard();
    set(&mut draft, case.setting, case.value);
    match Settings::try_from(draft) {
        Ok(_) => case.refusal.is_none(),
        Err(fault) => {
            let named = match fault {
                SettingsFault::OutOfRange(setting) => setting == case.setting,
                SettingsFault::OutOfOrder => true,
            };
            named && case.refusal == Some(u8::from(fault))
        }
    }
}

pub(crate) fn check(rt: &HostRuntime) -> io::Result<()> {
    let mut tally = Tally::default();
    for case in &CASES {
        if !tally.right(agrees(case)) {
            let Case { setting, value, .. } = *case;
            println!(rt; "settings, {setting:?} {value}: wrong")?;
        }
    }
    println!(rt; "settings: {tally}")
}
