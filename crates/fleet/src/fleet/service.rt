// Calls on a registered unit, and a table built anew from those in service. A refused call leaves
// the fleet as it stood.
ghost use Rattle.std.specs.Prelude.{◌≡◌, length};
ghost use Rattle.rounding.specs.Tolerance.{raised as raised_by_one};
ghost use Rattle.fleet.specs.Refusals.{Outcome};
ghost use Rattle.fleet.specs.Units.{in_service};
ghost use Rattle.fleet.specs.Standing.{unit_with};
ghost use Rattle.fleet.specs.Withdrawing.{withdrawn_tolerance, withdraw_refusal, after_withdraw};
ghost use Rattle.fleet.specs.Returning.{return_refusal, after_return};
ghost use Rattle.fleet.specs.Retiring.{retire_refusal, after_retire};
ghost use Rattle.fleet.specs.Rebuilding.{after_rebuild};
ghost use Rattle.fleet.specs.Fleets.{ledger_of};

use super::Fleet;
use super::tolerance::{after_removal, raised};
use crate::record::UnitRecord;
use crate::refusal::Refusal;
use rounding::Rounding;

// Each call turns what the look-up finds into a refusal of its own list.
impl Fleet {
    // Sets a unit in service out, takes it out of the table under the rule, and answers the new
    // tolerance.
    pub fn withdraw<R: Rounding>(&mut self, rule: &R, identity: u32) -> Result<u32, Refusal>
        ensures answer { Outcome (withdraw_refusal (ledger_of self.old) identity) result (λ t. t ≡ withdrawn_tolerance (unit_with identity (ledger_of self.old).units).states (ledger_of self.old).tolerance) }
        ensures after { ledger_of self.new ≡ after_withdraw (R.answer rule.now) (ledger_of self.old) identity }
    {
        let place = self.register.find(identity).ok_or(Refusal::NotRegistered)?;
        let unit = self.register.at(place);
        unit.stands(true)?;
        let tolerance = after_removal(self.tolerance, unit.first_weight())?;
        let greatest = self.register.total(UnitRecord::service_outage) - unit.service_outage();
        self.table.remove(rule, unit, greatest);
        self.register.set_serving(place, false);
        self.tolerance = tolerance;
        Ok(tolerance)
    }

    // Takes back into service a unit that is out, adds it to the table under the rule, and answers
    // the new tolerance.
    pub fn return_unit<R: Rounding>(&mut self, rule: &R, identity: u32) -> Result<u32, Refusal>
        ensures answer { Outcome (return_refusal (ledger_of self.old) identity) result (λ t. t ≡ raised_by_one (ledger_of self.old).tolerance) }
        ensures after { ledger_of self.new ≡ after_return (R.answer rule.now) (ledger_of self.old) identity }
    {
        let place = self.register.find(identity).ok_or(Refusal::NotRegistered)?;
        let unit = self.register.at(place);
        unit.stands(false)?;
        let tolerance = raised(self.tolerance)?;
        self.table.add(rule, unit);
        self.register.set_serving(place, true);
        self.tolerance = tolerance;
        Ok(tolerance)
    }

    // Strikes a unit that is out, and answers how many units remain registered.
    pub fn retire(&mut self, identity: u32) -> Result<u32, Refusal>
        ensures answer { Outcome (retire_refusal (ledger_of self.old) identity) result (λ n. n ≡ length (after_retire (ledger_of self.old) identity).units) }
        ensures after { ledger_of self.new ≡ after_retire (ledger_of self.old) identity }
    {
        let place = self.register.find(identity).ok_or(Refusal::NotRegistered)?;
        self.register.at(place).stands(false)?;
        self.register.strike(place);
        Ok(self.register.len() as u32)
    }

    // Builds the table anew from the units in service, in the order of the register, and answers
    // the tolerance, which is their number.
    pub fn rebuild<R: Rounding>(&mut self, rule: &R) -> u32
        ensures answer { result ≡ length (in_service (ledger_of self.old).units) }
        ensures after { ledger_of self.new ≡ after_rebuild (R.answer rule.now) (ledger_of self.old) }
    {
        self.table.rebuild(rule, self.register.registered());
        let count = self.register.serving() as u32;
        self.tolerance = count;
        count
    }
}
