//! The rules that lead from code to code: the first one that fits the code and the reading applies.

ghost use Rattle.std.specs.Prelude.{◌≡◌, true, nat_le};
ghost use Rattle.reading.specs.declared.Measured.{Measured};
ghost use Rattle.watch.specs.Rule.{span_of};
ghost use Rattle.charger.specs.Chargers.{facts_of, led};
ghost use Rattle.charger.specs.Rules.{barred, outside, nearly_full, above, heat_rules, hot_limit, range_rules, rules};

use crate::settings::*;
use crate::*;

/// How long the battery may be too hot: 129 minutes.
const HOT_LIMIT: u64 = 30_960_000;

/// How long trickle and pre-charging may take together: 129 minutes.
const PRE_LIMIT: u64 = 30_960_000;

/// How long fast charging may take: 641 minutes.
const FAST_LIMIT: u64 = 153_840_000;

/// How long topping off takes: 15 seconds.
const TOP_LIMIT: u64 = 60_000;

impl Charger {
    /// Goes to the code that the rules order for a reading.
    pub(crate) fn turn(&mut self, reading: &Reading)
        ensures after { self.new ≡ led (rules self.old.settings (facts_of self.old reading.now)) self.old }
    {
        match (self.code, reading) {
            _ if self.reset => self.code = Code::Suspend,
            (Code::BattError, _) => {}
            _ if self.is_barred() => self.code = Code::Suspend,
            (_, reading) if is_outside(reading) => self.protect(),
            (_, reading) => self.charge(reading),
        }
    }

    /// Whether bad input, over-voltage or a hold bars charging.
    fn is_barred(&self) -> bool
        ensures answer { (m : Measured) → result ≡ barred (facts_of self.now m) }
    {
        !self.input_good || self.over_voltage || self.held
    }

    /// Where the battery is too cold or too hot.
    fn protect(&mut self)
        ensures after { self.new ≡ led (heat_rules true (nat_le hot_limit (span_of self.old.hot))) self.old }
    {
        match (self.code, self.hot.span()) {
            (Code::TempErr1 | Code::TempErr2 | Code::TempErr5, hot) if hot >= HOT_LIMIT => {
                self.code = Code::BattError;
            }
            (Code::TrickleCharge, _) => self.code = Code::TempErr5,
            (Code::PreCharge, _) => self.code = Code::TempErr1,
            (Code::FastCharge | Code::TopOff | Code::BattAssist1 | Code::BattAssist2, _) => {
                self.code = Code::TempErr2;
            }
            (Code::Done | Code::BattAssist3, _) => self.code = Code::TempErr3,
            (Code::Suspend | Code::BatDet, _) => self.code = Code::TempErr4,
            _ => {}
        }
    }

    /// Where nothing stands in the way of charging.
    fn charge(&mut self, reading: &Reading)
        ensures after { self.new ≡ led (range_rules self.old.settings (facts_of self.old reading.now)) self.old }
    {
        let settings = self.settings;
        match (self.code, reading) {
            (Code::TempErr5, _) => self.code = Code::TrickleCharge,
            (Code::TempErr1, _) => self.code = Code::PreCharge,
            (Code::TempErr2, _) => self.code = Code::FastCharge,
            (Code::TempErr3, _) => self.code = Code::Done,
            (Code::TempErr4, _) => self.code = Code::Suspend,
            (Code::Suspend, _) => self.code = Code::BatDet,
            (Code::BatDet, r) if r.vbat < settings.vpre_lo => self.code = Code::TrickleCharge,
            (Code::BatDet, r) if r.vbat < settings.vpre_hi => self.code = Code::PreCharge,
            (Code::BatDet, _) => self.code = Code::FastCharge,
            (Code::TrickleCharge | Code::PreCharge, r)
                if self.clocks.pre.elapsed(r.tick) >= PRE_LIMIT => {
                self.code = Code::BattError;
            }
            (Code::TrickleCharge, r) if r.vbat >= settings.vpre_lo => self.code = Code::PreCharge,
            (Code::PreCharge, r) if r.vbat >= settings.vpre_hi => self.code = Code::FastCharge,
            (Code::FastCharge, r) if self.clocks.fast.elapsed(r.tick) >= FAST_LIMIT => {
                self.code = Code::BattError;
            }
            (Code::FastCharge, r) if is_above(r, 60) => self.code = Code::BattAssist1,
            (Code::FastCharge, r) if self.is_nearly_full(r) => self.code = Code::TopOff,
            (Code::TopOff, r) if is_above(r, 60) => self.code = Code::BattAssist2,
            (Code::TopOff, r) if !self.is_nearly_full(r) => self.code = Code::FastCharge,
            (Code::TopOff, r) if self.clocks.top.elapsed(r.tick) >= TOP_LIMIT => self.code =
                Code::Done,
            (Code::Done, r) if is_above(r, 60) => self.code = Code::BattAssist3,
            (Code::Done, r) if r.vbat < settings.vbat_mnt => self.code = Code::FastCharge,
            (Code::BattAssist1, r) if !is_above(r, 20) => self.code = Code::FastCharge,
            (Code::BattAssist2, r) if !is_above(r, 20) => self.code = Code::TopOff,
            (Code::BattAssist3, r) if !is_above(r, 20) => self.code = Code::Done,
            _ => {}
        }
    }

    /// Whether the battery is nearly full.
    fn is_nearly_full(&self, reading: &Reading) -> bool
        ensures answer { result ≡ nearly_full self.now.settings reading.now }
    {
        let settings = self.settings;
        reading.vbat >= settings.vbat_chg
            && (Milliamps(0)..=settings.ifst_term).contains(&reading.cur)
    }
}

/// Whether the battery is too cold or too hot to be charged.
fn is_outside(reading: &Reading) -> bool
    ensures answer { result ≡ outside reading.now }
{
    !(Celsius(2)..=Celsius(58)).contains(&reading.temp)
}

/// Whether the battery's voltage is so many millivolts or more above the system's.
fn is_above(reading: &Reading, millivolts: u16) -> bool
    ensures answer { result ≡ above millivolts reading.now }
{
    u32::from(reading.vbat.0) >= u32::from(reading.vsys.0) + u32::from(millivolts)
}
