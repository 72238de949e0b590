// A register at its start, and what alters one.
ghost use Rattle.std.specs.Prelude.{◌≡◌, ◌+◌, ◌<◌, ◌≤◌, [], ◌∷◌, ◌++◌, length};
ghost use Rattle.std.specs.List.{remove};
ghost use Rattle.fleet.specs.Units.{unit_of, registered_capacity};
ghost use Rattle.fleet.specs.Standing.{with_standing};
ghost use Rattle.fleet.specs.Registers.{units_of};

use super::Register;
use crate::record::UnitRecord;
use arrayvec::ArrayVec;

impl Register {
    pub(crate) fn empty() -> Register
        ensures { units_of result ≡ [] }
    {
        Register {
            units: ArrayVec::new(),
        }
    }

    // Puts a unit last.
    pub(crate) fn push(&mut self, unit: UnitRecord)
        requires room { length (units_of self.old) < 64 }
        requires capacity { registered_capacity (units_of self.old) + unit.capacity ≤ 1000 }
        ensures { units_of self.new ≡ units_of self.old ++ unit_of unit ∷ [] }
    {
        self.units.push(unit);
    }

    // Changes the standing of the unit at a place, and of no other.
    pub(crate) fn set_serving(&mut self, place: usize, serving: bool)
        requires { place < length (units_of self.old) }
        ensures { units_of self.new ≡ with_standing serving place (units_of self.old) }
    {
        self.units[place].serving = serving;
    }

    // Takes out the unit at a place; each later one moves up a place.
    pub(crate) fn strike(&mut self, place: usize)
        requires { place < length (units_of self.old) }
        ensures { units_of self.new ≡ remove (units_of self.old) place }
    {
        self.units.remove(place);
    }
}
