// A unit put into a table, and one taken out of it. The recursion reads a copy of the unit, for the
// reason that stands at `UnitRecord::copied`.
ghost use Rattle.std.specs.Prelude.{◌≡◌, ℕ, ◌+◌, ◌<◌, if◌then◌else◌};
ghost use Rattle.rounding.specs.Table.{Zeros};
ghost use Rattle.rounding.specs.Adding.{added};
ghost use Rattle.rounding.specs.Removing.{first_weight, without};
ghost use Rattle.fleet.specs.States.{outage_of_last};
ghost use Rattle.fleet.specs.Units.{unit_of, service_outage};

use super::Table;
use crate::record::UnitRecord;
use rounding::Rounding;

impl Table {
    // Adds a unit under the rule.
    pub(crate) fn add<R: Rounding>(&mut self, rule: &R, unit: &UnitRecord)
        ensures entries { self.new.entries ≡ added (R.answer rule.now) (unit_of unit.now).states self.old.entries }
        ensures zeros { (m : ℕ) → Zeros m self.old.entries → Zeros (m + outage_of_last (unit_of unit.now).states) self.new.entries }
    {
        let unit = unit.copied();
        rounding::add(rule, unit.states(), &mut self.entries);
    }

    // Adds a unit if it is in service.
    pub(super) fn add_if_serving<R: Rounding>(&mut self, rule: &R, unit: &UnitRecord)
        ensures entries { self.new.entries ≡ (if unit.now.serving then added (R.answer rule.now) (unit_of unit.now).states self.old.entries else self.old.entries) }
        ensures zeros { (m : ℕ) → Zeros m self.old.entries → Zeros (m + service_outage (unit_of unit.now)) self.new.entries }
    {
        if unit.serving {
            self.add(rule, unit);
        }
    }

    // Takes a unit out under the rule. `greatest` is the greatest possible outage without it.
    pub(crate) fn remove<R: Rounding>(&mut self, rule: &R, unit: &UnitRecord, greatest: u32)
        requires mostly { 500000 < first_weight (unit_of unit.now).states }
        ensures entries { self.new.entries ≡ without (R.answer rule.now) (unit_of unit.now).states greatest self.old.entries }
        ensures zeros { Zeros greatest self.new.entries }
    {
        let unit = unit.copied();
        rounding::remove(rule, unit.states(), greatest as usize, &mut self.entries);
    }
}
