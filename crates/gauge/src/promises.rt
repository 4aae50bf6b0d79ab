//! The laws of the count, and a whole run under them.

ghost use Rattle.std.specs.Prelude.{◌≡◌, ◌≤◌, List, ◌∷◌, reverse};
ghost use Rattle.gauge.specs.Charges.{kept, exact, Stayed, Close, TheCountFollowsTheCharge, TheLeastChargeHasItsCount, ACountHas28Bits, AWrittenByteIsReadBack, AnyCountCanBeWritten};
ghost use Rattle.gauge.specs.Counts.{fullest, count_of};

use crate::*;

/// However many events there were, the count follows the exact charge.
#[tactic(auto, using(crate::proofs::Follows::follows))]
pub fn the_count_follows_the_charge()
    ensures law { TheCountFollowsTheCharge }
{}

/// A write leaves the smallest charge with the count that was written.
pub fn the_least_charge_has_its_count()
    ensures law { TheLeastChargeHasItsCount }
{}

/// The counter's range is that of a count with 28 bits, and the four bytes, the highest first, make the count.
#[tactic(auto, using(crate::proofs::Bytes::bits))]
pub fn a_count_has_28_bits()
    ensures law { ACountHas28Bits }
{}

/// A write leaves the count with one byte replaced: it is read back, less the bits that are not kept, and the other
/// three stay.
#[tactic(auto, using(crate::proofs::Bytes::read_back))]
pub fn a_written_byte_is_read_back()
    ensures law { AWrittenByteIsReadBack }
{}

/// Any count of whole steps can be written, byte by byte, whatever stood there.
#[tactic(auto, using(crate::proofs::Bytes::any_count))]
pub fn any_count_can_be_written()
    ensures law { AnyCountCanBeWritten }
{}

impl Gauge {
    /// The same gauge after one event more.
    pub fn happen(&mut self, event: Event)
        ensures after { (es : List Event) → self.old ≡ kept es → self.new ≡ kept (event ∷ es) }
        ensures top { self.new ≤ fullest }
    {
        match event {
            Event::Flowed(current, ticks) => self.flow(current, ticks),
            Event::Written(byte, value) => self.write(byte, value),
        }
    }

    /// A gauge without charge, after these events from the first to the last.
    #[tactic(auto, using(crate::proofs::Follows::newest))]
    pub fn after(events: &[Event]) -> Gauge
        ensures answer { result ≡ kept (reverse events.now) }
        ensures close { Stayed (reverse events.now) → Close (count_of result) (exact (reverse events.now)) }
    {
        let mut gauge = Gauge::empty();
        for event in events {
            gauge.happen(*event);
        }
        gauge
    }
}
