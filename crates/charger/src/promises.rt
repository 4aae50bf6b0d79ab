//! The laws of the charger, over everything that can happen to it.

ghost use Rattle.charger.specs.Histories.{TheChargerFollowsItsHistory};
ghost use Rattle.charger.specs.Laws.{ConditionsEnd150MVAway, ConditionsLast, ClocksCountFromTheLatestStart, NoDetourStartsAClock, NoCodeOutlastsItsClock, NothingComesBeforeItsClock, ABatteryErrorWaitsForAReset, ItDrivesOnlyWhereItIsSafe, ItChargesWhereItMay};

/// Whatever happened, the code, the conditions and the clocks that a charger keeps are those that its history tells.
#[tactic(auto, using(crate::proofs::Following::follows))]
pub fn the_charger_follows_its_history()
    ensures law { TheChargerFollowsItsHistory }
{}

/// Input is good, and over-voltage stands, exactly while a reading has begun it and no later one has ended it; both end
/// more than 150 mV away from where they begin.
#[tactic(auto, using(crate::proofs::Lasting::conditions, crate::proofs::Lasting::apart))]
pub fn conditions_last()
    ensures law { ConditionsLast }
    ensures apart { ConditionsEnd150MVAway }
{}

/// A clock counts from a tick exactly where a good reading at that tick started it, and no later one did.
pub fn clocks_count_from_the_latest_start()
    ensures law { ClocksCountFromTheLatestStart }
{}

/// No way on from cold, heat or battery assist starts a clock, nor does the way on from trickle charging or topping off.
#[tactic(auto, using(crate::proofs::Progress::no_start))]
pub fn no_detour_starts_a_clock()
    ensures law { NoDetourStartsAClock }
{}

/// No reading keeps the charger in a code whose clock has met its limit.
#[tactic(auto, using(crate::proofs::Progress::in_time))]
pub fn no_code_outlasts_its_clock()
    ensures law { NoCodeOutlastsItsClock }
{}

/// A reading leads to a battery error only where a clock has met its limit, and to a full battery only after 15 seconds of
/// topping off.
#[tactic(auto, using(crate::proofs::Progress::on_time))]
pub fn nothing_comes_before_its_clock()
    ensures law { NothingComesBeforeItsClock }
{}

/// A battery error is left by a charger reset and by nothing else.
#[tactic(auto, using(crate::proofs::Safety::waits))]
pub fn a_battery_error_waits_for_a_reset()
    ensures law { ABatteryErrorWaitsForAReset }
{}

/// A current is driven only in a charging code, and then with good input, without over-voltage, without a hold, at 2 to
/// 58 degrees, with the reset bit zero, and with no battery error since the latest charger reset.
#[tactic(auto, using(crate::proofs::Safety::drives))]
pub fn it_drives_only_where_it_is_safe()
    ensures law { ItDrivesOnlyWhereItIsSafe }
{}

/// A suspended charger that is neither reset nor held charges after two readings with good input, without over-voltage
/// and at 2 to 58 degrees.
pub fn it_charges_where_it_may()
    ensures law { ItChargesWhereItMay }
{}
