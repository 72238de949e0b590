// Units made: one for a place that none has taken, one that keeps the rules, and a copy.
ghost use Rattle.std.specs.Prelude.{◌≡◌};
ghost use Rattle.fleet.specs.Units.{unit_of, new_unit};
ghost use Rattle.fleet.specs.Refusals.{Outcome};
ghost use Rattle.fleet.specs.Adding.{unit_refusal};

use super::{CAPACITY, UnitRecord};
use crate::refusal::Refusal;
use crate::states::lawful;
use arrayvec::ArrayVec;
use rounding::{MILLION, State};

// The greatest identity.
const IDENTITIES: u32 = 65_535;

// What stands in a place of the register that no unit has taken: a unit out of service, with one
// state, in which nothing is out. It is written out, since its states keep their rules.
impl Default for UnitRecord {
    fn default() -> UnitRecord {
        let mut states = ArrayVec::new();
        states.push(State {
            outage: 0,
            weight: MILLION,
        });
        UnitRecord {
            identity: 0,
            capacity: 0,
            states,
            serving: false,
        }
    }
}

impl UnitRecord {
    // A unit in service, if identity, capacity and states keep the rules.
    pub(crate) fn checked(
        identity: u32,
        capacity: u32,
        states: &[State],
    ) -> Result<UnitRecord, Refusal>
        ensures { Outcome (unit_refusal identity capacity states.now) result (λ u. unit_of u ≡ new_unit identity capacity states.now) }
    {
        if !(1..=IDENTITIES).contains(&identity) {
            return Err(Refusal::Identity);
        }
        if !(1..=CAPACITY).contains(&capacity) {
            return Err(Refusal::Capacity);
        }
        if !lawful(capacity, states) {
            return Err(Refusal::States);
        }
        let Ok(states) = ArrayVec::try_from(states) else {
            // states that keep the rules are at most eight
            unreachable!()
        };
        Ok(UnitRecord {
            identity,
            capacity,
            states,
            serving: true,
        })
    }

    // The same unit once more. While a table is changed, a copy that nothing else refers to lets
    // the compiler keep the states at hand.
    pub(crate) fn copied(&self) -> UnitRecord
        ensures { unit_of result ≡ unit_of self.now }
    {
        let Ok(states) = ArrayVec::try_from(self.states()) else {
            // a unit has no more states than fit
            unreachable!()
        };
        UnitRecord {
            identity: self.identity,
            capacity: self.capacity,
            states,
            serving: self.serving,
        }
    }
}
