//! A board hands over conversions one by one and drives a charging current.
#![tactic(auto)]

ghost use Rattle.std.specs.Prelude.{◌≡◌, ℕ, ◌≤◌};
ghost use Rattle.board.specs.Meaning.{Meaning, first, taken, drive_answer, driving, number_of, take_number, drive_number};

use reading::*;

pub mod amount;
pub mod drive;
pub mod trim;

/// What a keeper asks of a board. Whoever writes a board says what it means, and shows that the
/// four functions keep to that; everything above a board follows from its meaning alone.
// No model beside it: the meaning is one already, and a type of meanings would have to show the ceiling's bounds of all.
pub trait Board {
    ghost meaning: { Self → Meaning };

    // The ceiling lies from 100 to 2,000 mA. These two stand above the functions, so that a `&dyn Board` shows them too.
    ghost lowest: { (b : Self) → 100 ≤ (meaning b).ceiling };

    ghost highest: { (b : Self) → (meaning b).ceiling ≤ 2000 };

    /// The highest current that this board drives: fixed, from 100 to 2,000 mA.
    fn ceiling(&self) -> ChargeMilliamps
        ensures answer { result.0 ≡ (meaning self.now).ceiling };

    /// Takes the first conversion that waits: a reading, or a fault with the blank. A fault too
    /// where nothing waits, and then nothing changes.
    fn take(&mut self) -> Result<Reading, Fault>
        ensures answer { result ≡ first (meaning self.old).waiting }
        ensures number { number_of result ≡ take_number (meaning self.old).waiting }
        ensures after { meaning self.new ≡ taken (meaning self.old) };

    /// Drives this current, or refuses one above the ceiling, and then nothing changes.
    fn drive(&mut self, current: ChargeMilliamps) -> Result<(), Fault>
        ensures answer { result ≡ drive_answer current.0 (meaning self.old) }
        ensures number { number_of result ≡ drive_number current.0 (meaning self.old) }
        ensures after { meaning self.new ≡ driving current.0 (meaning self.old) };

    /// The current that it drives.
    fn driven(&self) -> ChargeMilliamps
        ensures answer { result.0 ≡ (meaning self.now).drive };
}
