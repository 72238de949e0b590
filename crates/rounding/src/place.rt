// A place of a table, and what can be read of the table from there down.
ghost use Rattle.std.specs.Prelude.{◌≡◌, ℕ, ◌<◌, ◌≤◌, length, slice_index};
ghost use Rattle.rounding.specs.Table.{full, entry_before};
ghost use Rattle.rounding.specs.Mixture.{million, weights, amount as amount_of};

use crate::state::State;
use crate::table::FULL;

#[derive(Drop)]
pub(crate) struct Place<'a> {
    pub entries: &'a [u64],
    pub k: usize,
    ghost within: { k < length entries.now },
    ghost fit: { (i : ℕ) → slice_index entries.now i ≤ full },
}

impl Place<'_> {
    // The entry at place k − outage; a place below 0 counts as certain.
    pub(crate) fn entry_before(&self, outage: u32) -> u64
        ensures { result ≡ entry_before self.now.entries.now self.now.k outage }
    {
        let outage = outage as usize;
        if self.k < outage {
            FULL
        } else {
            self.entries[self.k - outage]
        }
    }

    // The sum of weight × entry at k − outage over the states. It fits, since entries are at most
    // FULL and weights total a million.
    pub(crate) fn amount(&self, states: &[State]) -> u64
        requires { weights states.now ≤ million }
        ensures { result ≡ amount_of states.now self.now.entries.now self.now.k }
    {
        let mut sum: u64 = 0;
        for state in states {
            sum += u64::from(state.weight) * self.entry_before(state.outage);
        }
        sum
    }
}
