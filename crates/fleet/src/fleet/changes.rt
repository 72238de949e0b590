// A fleet at its start, and a unit added to it. A refused call leaves the fleet as it stood.
ghost use Rattle.std.specs.Prelude.{◌≡◌};
ghost use Rattle.fleet.specs.Refusals.{Outcome};
ghost use Rattle.fleet.specs.Ledger.{opened};
ghost use Rattle.rounding.specs.Tolerance.{raised as raised_by_one};
ghost use Rattle.fleet.specs.Adding.{add_refusal, after_add};
ghost use Rattle.fleet.specs.Fleets.{ledger_of};

use super::Fleet;
use super::tolerance::raised;
use crate::record::UnitRecord;
use crate::refusal::Refusal;
use crate::register::Register;
use crate::table::Table;
use rounding::{Rounding, State};

impl Fleet {
    // A fleet with no units.
    pub fn open() -> Fleet
        ensures { ledger_of result ≡ opened }
    {
        Fleet {
            register: Register::empty(),
            table: Table::open(),
            tolerance: 0,
        }
    }

    // Appends a unit in service, adds it to the table under the rule, and answers the new
    // tolerance. Inlined, so that states which the caller's text fixes are known to the recursion.
    #[inline(always)]
    pub fn add<R: Rounding>(
        &mut self,
        rule: &R,
        identity: u32,
        capacity: u32,
        states: &[State],
    ) -> Result<u32, Refusal>
        ensures answer { Outcome (add_refusal (ledger_of self.old) identity capacity states.now) result (λ t. t ≡ raised_by_one (ledger_of self.old).tolerance) }
        ensures after { ledger_of self.new ≡ after_add (R.answer rule.now) (ledger_of self.old) identity capacity states.now }
    {
        let unit = UnitRecord::checked(identity, capacity, states)?;
        self.register.room(&unit)?;
        let tolerance = raised(self.tolerance)?;
        self.table.add(rule, &unit);
        self.register.push(unit);
        self.tolerance = tolerance;
        Ok(tolerance)
    }
}
