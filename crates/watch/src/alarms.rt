//! The alarm over a run.

ghost use Rattle.std.specs.Prelude.{◌≡◌};
ghost use Rattle.watch.specs.Rule.{made, sensed, rethresholded, retimed};

use crate::*;

impl<T: Threshold + Copy> Alarm<T> {
    /// An alarm that has seen nothing.
    pub fn new(threshold: T, duration: u8) -> Alarm<T>
        ensures answer { result ≡ made threshold duration }
    {
        Alarm {
            run: Run::new(threshold),
            duration,
            bit: false,
        }
    }

    /// Takes one good reading into account.
    pub fn see(&mut self, reading: &Reading)
        ensures after { self.new ≡ sensed T.passes reading.now self.old }
    {
        self.run.see(reading);
        self.bit = self.run.lasts() && self.run.span() >= u64::from(self.duration);
    }

    /// Another threshold: the bit is cleared, and the run begins anew.
    pub fn set_threshold(&mut self, threshold: T)
        ensures after { self.new ≡ rethresholded threshold self.old }
    {
        self.run = Run::new(threshold);
        self.bit = false;
    }

    /// Another duration: the bit is cleared, and the run begins anew.
    pub fn set_duration(&mut self, duration: u8)
        ensures after { self.new ≡ retimed duration self.old }
    {
        self.run = Run::new(self.run.threshold);
        self.duration = duration;
        self.bit = false;
    }

    /// Whether the alarm stands.
    pub fn bit(&self) -> bool
        ensures answer { result ≡ self.now.bit }
    {
        self.bit
    }

    /// What it watches for.
    pub fn threshold(&self) -> T
        ensures answer { result ≡ self.now.run.threshold }
    {
        self.run.threshold
    }

    /// How many ticks a run has to span.
    pub fn duration(&self) -> u8
        ensures answer { result ≡ self.now.duration }
    {
        self.duration
    }
}
