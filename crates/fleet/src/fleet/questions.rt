// What can be asked of a fleet. A question alters nothing.
ghost use Rattle.std.specs.Prelude.{◌≡◌, ◌≤◌};
ghost use Rattle.fleet.specs.Refusals.{Outcome};
ghost use Rattle.fleet.specs.Units.{capacity as service_capacity, greatest_outage};
ghost use Rattle.fleet.specs.LookUp.{look_up};
ghost use Rattle.fleet.specs.Entries.{Entry, entry_refusal};
ghost use Rattle.fleet.specs.Fleets.{ledger_of};

use super::Fleet;
use crate::record::UnitRecord;
use crate::refusal::Refusal;

impl Fleet {
    // The number of parts at place k, together with the tolerance.
    pub fn entry(&self, k: u32) -> Result<(u64, u32), Refusal>
        ensures { Outcome (entry_refusal k) result (λ answer. Entry (ledger_of self.now) k answer) }
    {
        Ok((self.table.entry(k)?, self.tolerance))
    }

    // The capacity and the standing (1 in service, 0 out) of a registered identity.
    pub fn unit(&self, identity: u32) -> Option<(u32, u32)>
        ensures { result ≡ look_up identity (ledger_of self.now).units }
    {
        let place = self.register.find(identity)?;
        Some(self.register.at(place).plain())
    }

    // The capacity of the units in service.
    pub fn capacity(&self) -> u32
        ensures value { result ≡ service_capacity (ledger_of self.now).units }
        ensures bound { result ≤ 1000 }
    {
        self.register.total(UnitRecord::service_capacity)
    }

    // The greatest possible outage of the units in service.
    pub fn greatest_outage(&self) -> u32
        ensures value { result ≡ greatest_outage (ledger_of self.now).units }
        ensures bound { result ≤ 1000 }
    {
        self.register.total(UnitRecord::service_outage)
    }
}
