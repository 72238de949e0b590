// Tables made anew: an open one, and one of the units in service.
ghost use Rattle.std.specs.Prelude.{◌≡◌, map};
ghost use Rattle.rounding.specs.Table.{Zeros};
ghost use Rattle.fleet.specs.Units.{unit_of, in_service, greatest_outage};
ghost use Rattle.fleet.specs.Ledger.{open_table};
ghost use Rattle.fleet.specs.Rebuilding.{table_of};

use super::{PLACES, Table};
use crate::record::UnitRecord;
use rounding::{FULL, Rounding};

impl Table {
    // A table with no units: entry 0 is certain.
    pub(crate) fn open() -> Table
        ensures { result.entries ≡ open_table }
    {
        let mut entries = [0; PLACES];
        entries[0] = FULL;
        Table { entries }
    }

    // Makes the table anew: an open one, to which those of the units that are in service are added
    // in their order. It is made in place, so that no second table need be held.
    pub(crate) fn rebuild<R: Rounding>(&mut self, rule: &R, units: &[UnitRecord])
        ensures entries { self.new.entries ≡ table_of (R.answer rule.now) (in_service (map unit_of units.now)) }
        ensures zeros { Zeros (greatest_outage (map unit_of units.now)) self.new.entries }
    {
        *self = Table::open();
        for unit in units {
            self.add_if_serving(rule, unit);
        }
    }
}
