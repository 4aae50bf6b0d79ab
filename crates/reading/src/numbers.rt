//! The numbers by which firmware and clerks know causes, kinds and faults; and the fault that tells of a blank.

ghost use Rattle.std.specs.Prelude.{◌≡◌};
ghost use Rattle.reading.specs.Numbers.{cause_number, kind_number, fault_number};
ghost use Rattle.reading.specs.declared.Fault.TheVariants.{NoReading};

use crate::*;

/// 1 to 4.
impl From<Cause> for u8 {
    ghost from_gives = { λ c n. n ≡ cause_number c };

    fn from(cause: Cause) -> u8 {
        cause as u8
    }
}

/// 1 for a tape, 2 for frames.
impl From<Kind> for u8 {
    ghost from_gives = { λ k n. n ≡ kind_number k };

    fn from(kind: Kind) -> u8 {
        kind as u8
    }
}

/// 1, 2 or 4; 3 is for a reading that comes too late, which no board judges.
impl From<Fault> for u8 {
    ghost from_gives = { λ f n. n ≡ fault_number f };

    fn from(fault: Fault) -> u8 {
        match fault {
            Fault::NothingWaiting => 1,
            Fault::NoReading(_) => 2,
            Fault::AboveCeiling => 4,
        }
    }
}

impl From<Blank> for Fault {
    ghost from_gives = { λ b f. f ≡ NoReading b };

    fn from(blank: Blank) -> Fault {
        Fault::NoReading(blank)
    }
}
