//! The law of alarms.

ghost use Rattle.watch.specs.Histories.{TheBitTellsOfARun, ARunIsTheLongest};

use crate::*;

/// Whatever is watched, after every history whose ticks do not fall, the bit is one if and only if an unbroken run of
/// past readings since the last write ends with the newest reading and spans at least the duration.
#[tactic(auto, using(crate::proofs::Telling::tells))]
pub fn the_bit_tells_of_a_run<T: Threshold>()
    ensures law { TheBitTellsOfARun T.Threshold.passes }
{}

/// Whatever is watched, a run that has seen some readings has the first tick and the span of the longest run of past
/// readings that ends with the newest.
pub fn a_run_is_the_longest<T: Threshold>()
    ensures law { ARunIsTheLongest T.Threshold.passes }
{}
