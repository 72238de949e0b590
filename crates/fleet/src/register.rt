// The register: up to 64 units, the earliest first.
ghost use Rattle.std.specs.Prelude.{◌≤◌, map};
ghost use Rattle.fleet.specs.Units.{unit_of, registered_capacity};

use crate::record::UnitRecord;
use arrayvec::ArrayVec;

mod changes;
mod questions;

// The most units that a register holds.
const UNITS: usize = 64;

#[derive(Drop)]
pub struct Register {
    units: ArrayVec<UnitRecord, UNITS>,
    ghost capacity: { registered_capacity (map unit_of units.items) ≤ 1000 },
}
