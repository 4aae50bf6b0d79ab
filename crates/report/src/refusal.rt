//! Why a program gives no report, in a line for whoever called it.

ghost use Rattle.std.specs.Prelude.{◌≡◌, Some};
ghost use Rattle.report.specs.Refusals.{refusal_number, sentence_of, refusal_line};
ghost use Rattle.report.specs.declared.refusal.Refusal.TheVariants.{AmountOutOfRange};

use board::amount::*;
use std::fmt;

/// What was wrong with the tape or with the arguments.
#[derive(Clone, Copy, PartialEq, Eq, Debug)]
pub enum Refusal {
    /// More than 65,536 bytes, or more than 2,976 value lines.
    TapeTooLong,
    /// A first line that is not the six names.
    BadNames,
    /// A trim amount outside -200 to 200 mA.
    AmountOutOfRange,
    /// An argument of `--trim` that is no whole number.
    NoWholeNumber,
    /// Any other argument.
    UnknownArgument,
}

impl Refusal {
    /// The number by which a clerk knows it, if it has one; so it is no `From`.
    pub fn number(self) -> Option<u8>
        ensures answer { result ≡ refusal_number self }
    {
        match self {
            Refusal::BadNames => Some(12),
            Refusal::TapeTooLong => Some(13),
            Refusal::AmountOutOfRange => Some(14),
            Refusal::NoWholeNumber | Refusal::UnknownArgument => None,
        }
    }

    /// What is wrong, and what to do about it.
    #[tactic(auto, unfolding(crate::specs::Refusals::sentence_of))]
    pub fn sentence(self) -> &'static str
        ensures answer { result.now ≡ sentence_of self }
    {
        match self {
            Refusal::TapeTooLong => {
                "the tape is longer than 65,536 bytes or 2,976 value lines; cut it, or record a shorter one"
            }
            Refusal::BadNames => {
                "the first line of the tape is not the names tick, vbat, vsys, dcin, cur and temp, each once, with commas between them and nothing else; correct that line"
            }
            Refusal::AmountOutOfRange => {
                "the trim amount does not lie between -200 and 200 mA; give one that does"
            }
            Refusal::NoWholeNumber => {
                "what follows --trim is not a whole number; write digits, with a minus sign in front if it lies below zero"
            }
            Refusal::UnknownArgument => {
                "the arguments are not understood; give none, or give --trim and a whole number from -200 to 200"
            }
        }
    }
}

impl fmt::Display for Refusal {
    ghost output = { λ r. Some (refusal_line r) };

    fn fmt<W: fmt::Write>(&self, f: &mut fmt::Formatter<W>) -> fmt::Result {
        let sentence = self.sentence();
        match self.number() {
            Some(number) => write!(f, "refused, {number}: {sentence}"),
            None => write!(f, "refused: {sentence}"),
        }
    }
}

impl From<TrimFault> for Refusal {
    ghost from_gives = { λ _ r. r ≡ AmountOutOfRange };

    fn from(fault: TrimFault) -> Refusal {
        match fault {
            TrimFault::AmountOutOfRange => Refusal::AmountOutOfRange,
        }
    }
}
