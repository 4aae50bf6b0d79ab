//! What a charger shows.

ghost use Rattle.std.specs.Prelude.{◌≡◌};

use crate::*;

impl Charger {
    /// The present code.
    pub fn code(&self) -> Code
        ensures answer { result ≡ self.now.code }
    {
        self.code
    }

    /// The charger reset bit as it was written last.
    pub fn reset_bit(&self) -> bool
        ensures answer { result ≡ self.now.reset }
    {
        self.reset
    }

    /// Whether somebody holds the charger.
    pub fn is_held(&self) -> bool
        ensures answer { result ≡ self.now.held }
    {
        self.held
    }

    /// Whether the charging input is good.
    pub fn is_input_good(&self) -> bool
        ensures answer { result ≡ self.now.input_good }
    {
        self.input_good
    }

    /// Whether the battery is at over-voltage.
    pub fn is_over_voltage(&self) -> bool
        ensures answer { result ≡ self.now.over_voltage }
    {
        self.over_voltage
    }
}
