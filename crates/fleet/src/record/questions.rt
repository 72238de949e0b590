// What can be asked of a unit.
ghost use Rattle.std.specs.Prelude.{◌≡◌, ◌≤◌, if◌then◌else◌};
ghost use Rattle.rounding.specs.Removing.{first_weight as weight_of_first};
ghost use Rattle.fleet.specs.States.{outage_of_last};
ghost use Rattle.fleet.specs.Units.{unit_of, whole_capacity as whole, service_capacity as capacity_in_service, service_outage as outage_in_service};
ghost use Rattle.fleet.specs.LookUp.{plain as plain_unit};
ghost use Rattle.fleet.specs.Refusals.{Outcome};
ghost use Rattle.fleet.specs.Standing.{standing_refusal};

use super::UnitRecord;
use crate::refusal::Refusal;
use crate::states::STATES;
use rounding::State;

impl UnitRecord {
    // The states, held to the room that there is, so that the compiler knows how many there can be
    // where the recursion asks for them at every place of a table.
    pub(crate) fn states(&self) -> &[State]
        ensures { result.now ≡ (unit_of self.now).states }
    {
        let states = self.states.as_slice();
        &states[..states.len().min(STATES)]
    }

    // The outage of the last state, which is the greatest.
    fn last_outage(&self) -> u32
        ensures value { result ≡ outage_of_last (unit_of self.now).states }
        ensures held { result ≤ self.now.capacity }
    {
        self.states.last().map_or(0, |state| state.outage)
    }

    // The weight of the first state, in which nothing is out.
    pub(crate) fn first_weight(&self) -> u32
        ensures value { result ≡ weight_of_first (unit_of self.now).states }
        ensures held { result ≤ 1000000 }
    {
        self.states.first().map_or(0, |state| state.weight)
    }

    // What the unit counts for in the capacity of all registered units.
    pub(crate) fn whole_capacity(&self) -> u32
        ensures value { result ≡ whole (unit_of self.now) }
        ensures held { result ≤ self.now.capacity }
    {
        self.capacity
    }

    // What it counts for in the capacity of the units in service.
    pub(crate) fn service_capacity(&self) -> u32
        ensures value { result ≡ capacity_in_service (unit_of self.now) }
        ensures held { result ≤ self.now.capacity }
    {
        self.while_serving(self.capacity)
    }

    // What it counts for in the greatest possible outage of the units in service.
    pub(crate) fn service_outage(&self) -> u32
        ensures value { result ≡ outage_in_service (unit_of self.now) }
        ensures held { result ≤ self.now.capacity }
    {
        self.while_serving(self.last_outage())
    }

    // The capacity and the standing, 1 in service and 0 out: plain numbers, as a look-up answers.
    pub(crate) fn plain(&self) -> (u32, u32)
        ensures { result ≡ plain_unit (unit_of self.now) }
    {
        (self.capacity, u32::from(self.serving))
    }

    // A number that counts only while the unit is in service.
    fn while_serving(&self, number: u32) -> u32
        ensures { result ≡ (if self.now.serving then number else 0) }
    {
        if self.serving { number } else { 0 }
    }

    // Refuses a call that needs the unit to stand otherwise: in service, or out.
    pub(crate) fn stands(&self, serving: bool) -> Result<(), Refusal>
        ensures { Outcome (standing_refusal serving (unit_of self.now)) result (λ _. Unit {0}) }
    {
        if self.serving != serving {
            return Err(Refusal::Standing);
        }
        Ok(())
    }
}
