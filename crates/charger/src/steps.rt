//! What happens to a charger: readings, resets, holds.

ghost use Rattle.std.specs.Prelude.{◌≡◌};
ghost use Rattle.charger.specs.Chargers.{made, taking, resetting, holding_on, letting_go};

use crate::conditions::*;
use crate::rules::*;
use crate::settings::*;
use crate::*;
use watch::thresholds::levels::*;

impl Charger {
    /// A charger with these settings, which are used up; it has seen nothing.
    pub fn new(settings: Settings) -> Charger
        ensures answer { result ≡ made settings }
    {
        Charger {
            settings: settings.values(),
            code: Code::Suspend,
            reset: false,
            held: false,
            input_good: false,
            over_voltage: false,
            hot: too_hot_clock(),
            clocks: Clocks::default(),
        }
    }

    /// Takes one good reading: first what it begins and ends, then the rules, then the clocks.
    pub fn see(&mut self, reading: &Reading)
        ensures after { self.new ≡ taking reading.now self.old }
    {
        self.input_good = input_after(self.input_good, reading);
        self.over_voltage = over_voltage_after(self.over_voltage, &self.settings, reading);
        self.hot.see(reading);
        let old = self.code;
        self.turn(reading);
        self.clocks.follow(old, self.code, reading.tick);
    }

    /// Writes the charger reset bit. Written one, it suspends the charger at once, from any code.
    pub fn set_reset(&mut self, bit: bool)
        ensures after { self.new ≡ resetting bit self.old }
    {
        self.reset = bit;
        if bit {
            self.code = Code::Suspend;
        }
    }

    /// Holds the charger: it suspends, unless there is a battery error.
    pub fn hold(&mut self)
        ensures after { self.new ≡ holding_on self.old }
    {
        self.held = true;
        if self.code != Code::BattError {
            self.code = Code::Suspend;
        }
    }

    /// Ends the hold; the code stays until the next good reading.
    pub fn release(&mut self)
        ensures after { self.new ≡ letting_go self.old }
    {
        self.held = false;
    }
}
