// What can be asked of a table.
ghost use Rattle.std.specs.Prelude.{◌≡◌, slice_index};
ghost use Rattle.fleet.specs.Refusals.{Outcome};
ghost use Rattle.fleet.specs.Entries.{entry_refusal};

use super::{PLACES, Table};
use crate::refusal::Refusal;

impl Table {
    // The number of parts at place k.
    pub(crate) fn entry(&self, k: u32) -> Result<u64, Refusal>
        ensures { Outcome (entry_refusal k) result (λ parts. parts ≡ slice_index self.now.entries k) }
    {
        let k = k as usize;
        if k >= PLACES {
            return Err(Refusal::Place);
        }
        Ok(self.entries[k])
    }
}
