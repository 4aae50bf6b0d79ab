//! When clocks start, and how far they have come.

ghost use Rattle.std.specs.Prelude.{◌≡◌};
ghost use Rattle.watch.specs.Rule.{span_from};
ghost use Rattle.charger.specs.Timing.{started};

use crate::*;
use watch::runs::*;

impl Clock {
    /// The ticks from the reading that started it, 0 where none did.
    pub(crate) fn elapsed(&self, tick: u64) -> u64
        ensures answer { result ≡ span_from self.now.since tick }
    {
        span_from(self.since, tick)
    }
}

impl Clocks {
    /// A reading at this tick led from one code to another, which may start a clock anew.
    pub(crate) fn follow(&mut self, old: Code, new: Code, tick: u64)
        ensures after { self.new ≡ started old new tick self.old }
    {
        let clock = Clock { since: Some(tick) };
        match (old, new) {
            (Code::BatDet, Code::TrickleCharge | Code::PreCharge) => self.pre = clock,
            (Code::PreCharge | Code::BatDet | Code::Done, Code::FastCharge) => self.fast = clock,
            (Code::FastCharge, Code::TopOff) => self.top = clock,
            _ => {}
        }
    }
}
