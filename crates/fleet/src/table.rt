// The capacity outage table of a fleet.
ghost use Rattle.std.specs.Prelude.{◌≡◌, length, slice_index};
ghost use Rattle.rounding.specs.Table.{full, Falling};

mod changes;
mod made;
mod questions;

// A table has the places 0 to 1,000.
const PLACES: usize = 1001;

#[derive(Drop)]
pub struct Table {
    // entry k: how likely it is, in parts, that at least k steps are out
    entries: [u64; PLACES],
    ghost places: { length entries ≡ 1001 },
    ghost certain: { slice_index entries 0 ≡ full },
    ghost falling: { Falling entries },
}
