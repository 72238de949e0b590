// A fleet: the register, the capacity outage table of the units in service, and its tolerance.
ghost use Rattle.std.specs.Prelude.{◌≤◌, map};
ghost use Rattle.rounding.specs.Table.{Zeros};
ghost use Rattle.fleet.specs.Units.{unit_of, greatest_outage};

use crate::register::Register;
use crate::table::Table;

mod changes;
mod questions;
mod service;
mod tolerance;

#[derive(Drop)]
pub struct Fleet {
    register: Register,
    table: Table,
    // by how many parts rounding may have moved an entry
    tolerance: u32,
    ghost zeros: { Zeros (greatest_outage (map unit_of register.units.items)) table.entries },
    ghost held: { tolerance ≤ 1000000 },
}
