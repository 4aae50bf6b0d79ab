//! The conditions that a reading begins or ends.

ghost use Rattle.std.specs.Prelude.{◌≡◌, if◌then◌else◌, true, false};
ghost use Rattle.charger.specs.Conditions.{turned, input_begins, input_ends, over_begins, over_ends};

use crate::settings::*;
use reading::*;

/// Whether a condition holds after a reading that begins it, ends it or does neither, where it held or not before.
fn after(was: bool, begins: bool, ends: bool) -> bool
    ensures answer { result ≡ (if begins then true else if ends then false else was) }
{
    begins || was && !ends
}

/// Whether the charging input is good after a reading, where it was good or not before.
pub(crate) fn input_after(was: bool, reading: &Reading) -> bool
    ensures answer { result ≡ turned input_begins input_ends reading.now was }
{
    let good = Millivolts(3800)..=Millivolts(6349);
    let tolerable = Millivolts(3650)..=Millivolts(6500);
    after(
        was,
        good.contains(&reading.dcin),
        !tolerable.contains(&reading.dcin),
    )
}

/// Whether there is over-voltage after a reading, where there was or not before.
pub(crate) fn over_voltage_after(was: bool, settings: &Draft, reading: &Reading) -> bool
    ensures answer { result ≡ turned (over_begins settings.now) (over_ends settings.now) reading.now was }
{
    let limit = settings.vbat_ovp;
    let safe = Millivolts(limit.0.saturating_sub(150));
    after(was, reading.vbat > limit, reading.vbat < safe)
}
