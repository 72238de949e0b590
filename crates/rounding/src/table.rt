// A capacity outage table as a slice of entries, and the recursion that adds a unit to it.
ghost use Rattle.std.specs.Prelude.{◌≡◌, ℕ, ◌+◌, ◌*◌, slice_index};
ghost use Rattle.rounding.specs.Table.{full, Falling, Zeros, Within};
ghost use Rattle.rounding.specs.Mixture.{million, weights, Outages, mixture};
ghost use Rattle.rounding.specs.Tolerance.{raised};
ghost use Rattle.rounding.specs.Adding.{added};

use crate::place::Place;
use crate::rule::Rounding;
use crate::state::State;

// Certainty as a number of parts of 10^-12.
pub const FULL: u64 = 1_000_000_000_000;

// Certainty as a weight: weights are millionths.
pub const MILLION: u32 = 1_000_000;

// Adds a unit with these states to the table, in place: from the top place down, since an entry
// needs only old entries at its own place and below. The sum is rounded once.
pub fn add<R: Rounding>(rule: &R, states: &[State], entries: &mut [u64])
    requires shares { weights states.now ≡ million }
    requires certain { slice_index entries.old 0 ≡ full }
    requires falling { Falling entries.old }
    ensures entries { entries.new ≡ added (R.answer rule.now) states.now entries.old }
    ensures certain { slice_index entries.new 0 ≡ full }
    ensures falling { Falling entries.new }
    ensures zeros { (m most : ℕ) → Outages most states.now → Zeros m entries.old → Zeros (m + most) entries.new }
    ensures error { (t scale : ℕ) (x : ℕ → ℕ) → Within t scale x entries.old → Within (raised t) (scale * million) (mixture states.now x) entries.new }
{
    for k in (0..entries.len()).rev() {
        let place = Place { entries, k };
        entries[k] = rule.round(place.amount(states), MILLION);
    }
}
