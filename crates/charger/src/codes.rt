//! The numbers of the codes, and the current that each of them asks for.

ghost use Rattle.std.specs.Prelude.{◌≡◌, min};
ghost use Rattle.charger.specs.Codes.{byte_of, asked};

use crate::settings::*;
use crate::*;
use reading::*;

/// The number that register CHG_STATE shows.
impl From<Code> for u8 {
    ghost from_gives = { λ c n. n ≡ byte_of c };

    fn from(code: Code) -> u8 {
        code as u8
    }
}

impl Code {
    /// The current that this code asks for.
    fn current(self, settings: &Draft) -> ChargeMilliamps
        ensures answer { result.0 ≡ asked settings.now self }
    {
        match self {
            Code::TrickleCharge => settings.itri,
            Code::PreCharge => settings.ipre,
            Code::FastCharge | Code::TopOff => settings.ifst,
            _ => ChargeMilliamps(0),
        }
    }
}

impl Charger {
    /// The charging current that the present code asks for, cut to a board's ceiling.
    pub fn drive(&self, ceiling: ChargeMilliamps) -> ChargeMilliamps
        ensures answer { result.0 ≡ min (asked self.now.settings self.now.code) ceiling.0 }
    {
        self.code.current(&self.settings).min(ceiling)
    }
}
