// What can be asked of a register.
ghost use Rattle.std.specs.Prelude.{◌≡◌, ℕ, ◌<◌, ◌≤◌, map, length, IfSome};
ghost use Rattle.std.specs.Fn.{FnReturnsAt};
ghost use Rattle.fleet.specs.Refusals.{Outcome};
ghost use Rattle.fleet.specs.Units.{GeneratingUnit, unit_of, in_service, total as total_of};
ghost use Rattle.fleet.specs.LookUp.{place as place_of};
ghost use Rattle.fleet.specs.Adding.{room_refusal};
ghost use Rattle.fleet.specs.Standing.{unit_at};
ghost use Rattle.fleet.specs.Registers.{units_of};
ghost use Rattle.fleet.specs.declared.record.UnitRecord.{UnitRecord};

use super::Register;
use crate::record::{CAPACITY, UnitRecord};
use crate::refusal::Refusal;

impl Register {
    // The registered units, the earliest first.
    pub(crate) fn registered(&self) -> &[UnitRecord]
        ensures { map unit_of result.now ≡ units_of self.now }
    {
        self.units.as_slice()
    }

    pub(crate) fn len(&self) -> usize
        ensures value { result ≡ length (units_of self.now) }
        ensures few { result ≤ 64 }
    {
        self.units.len()
    }

    // How many of them are in service.
    pub(crate) fn serving(&self) -> usize
        ensures value { result ≡ length (in_service (units_of self.now)) }
        ensures few { result ≤ 64 }
    {
        let units = self.units.as_slice();
        units.iter().filter(|unit| unit.serving).count()
    }

    // The place of the unit with an identity.
    pub(crate) fn find(&self, identity: u32) -> Option<usize>
        ensures place { result ≡ place_of identity (units_of self.now) }
        ensures inside { IfSome result (λ place. place < length (units_of self.now)) }
    {
        self.registered()
            .iter()
            .position(|unit| unit.identity == identity)
    }

    // The unit at a place.
    pub(crate) fn at(&self, place: usize) -> &UnitRecord
        requires { place < length (units_of self.now) }
        ensures { unit_at place (units_of self.now) ≡ unit_of result.now }
    {
        &self.registered()[place]
    }

    // The sum of what the units count for, none of them for more than its capacity.
    pub(crate) fn total<F: Fn(&UnitRecord) -> u32>(&self, share: F) -> u32
        requires callable { F.IsAlwaysCallable share }
        requires held { (u : UnitRecord) (n : ℕ) → FnReturnsAt F.Fn share u n → n ≤ u.capacity }
        ensures value { (counts : GeneratingUnit → ℕ) → ((u : UnitRecord) (n : ℕ) → FnReturnsAt F.Fn share u n → n ≡ counts (unit_of u)) → result ≡ total_of counts (units_of self.now) }
        ensures bound { result ≤ 1000 }
    {
        let mut sum: u32 = 0;
        for unit in self.registered() {
            sum += share(unit);
        }
        sum
    }

    // Whether one unit more finds room.
    pub(crate) fn room(&self, unit: &UnitRecord) -> Result<(), Refusal>
        ensures { Outcome (room_refusal (units_of self.now) unit.now.identity unit.now.capacity) result (λ _. Unit {0}) }
    {
        if self.find(unit.identity).is_some() {
            return Err(Refusal::Registered);
        }
        if self.units.is_full() {
            return Err(Refusal::Full);
        }
        if self.total(UnitRecord::whole_capacity) + unit.capacity > CAPACITY {
            return Err(Refusal::TotalCapacity);
        }
        Ok(())
    }
}
