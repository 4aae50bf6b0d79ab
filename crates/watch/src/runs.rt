//! The run that ends now.

ghost use Rattle.std.specs.Prelude.{◌≡◌, is_some};
ghost use Rattle.watch.specs.Rule.{fresh, seen, span_from, span_of};

use crate::*;

impl<T: Threshold + Copy> Run<T> {
    /// No reading yet.
    pub fn new(threshold: T) -> Run<T>
        ensures answer { result ≡ fresh threshold }
    {
        Run {
            threshold,
            first: None,
            last: 0,
        }
    }

    /// Takes one reading more into account.
    pub fn see(&mut self, reading: &Reading)
        ensures after { self.new ≡ seen T.passes reading.now self.old }
    {
        self.last = reading.tick;
        self.first = self
            .threshold
            .is_past(reading)
            .then_some(self.first.unwrap_or(reading.tick));
    }

    /// Whether the newest reading is past.
    pub fn lasts(&self) -> bool
        ensures answer { result ≡ is_some self.now.first }
    {
        self.first.is_some()
    }

    /// The ticks from the first reading of the run to the newest, 0 without a run.
    pub fn span(&self) -> u64
        ensures answer { result ≡ span_of self.now }
    {
        span_from(self.first, self.last)
    }
}

/// The ticks from the first of two readings to the last, 0 where there is no first.
pub fn span_from(first: Option<u64>, last: u64) -> u64
    ensures answer { result ≡ span_from first last }
{
    first.map_or(0, |first| last.saturating_sub(first))
}
