// The reverse of the recursion: taking a unit out of a table.
ghost use Rattle.std.specs.Prelude.{◌≡◌, ℕ, ◌*◌, ◌<◌, ◌≤◌, slice_index};
ghost use Rattle.rounding.specs.Table.{full, Falling, Zeros, Within};
ghost use Rattle.rounding.specs.Mixture.{million, weights, mixture};
ghost use Rattle.rounding.specs.Tolerance.{removal_tolerance};
ghost use Rattle.rounding.specs.Removing.{Starting, first_weight, entry_without, without, Tail};

use crate::place::Place;
use crate::rule::Rounding;
use crate::state::State;
use crate::table::MILLION;

// The entry at k without the unit. The entries below k are those without it already; rounding may
// not make one rise above the one before.
fn entry_without<R: Rounding>(
    rule: &R,
    first: &State,
    rest: &[State],
    greatest: usize,
    place: &Place,
) -> u64
    requires { weights rest.now ≤ million }
    ensures { result ≡ entry_without (R.answer rule.now) first.now rest.now greatest place.now.entries.now place.now.entries.now place.now.k }
{
    if place.k > greatest {
        return 0;
    }
    // what the states after the first leave of a million times the entry; at least 0
    let whole = u64::from(MILLION) * place.entry_before(0);
    let left = whole.saturating_sub(place.amount(rest));
    let told = rule.round(left, first.weight);
    told.min(place.entry_before(1))
}

// Takes a unit with these states out of the table, in place: from place 0 up, since an entry needs
// the new entries below its own. `greatest` is the greatest outage without the unit.
pub fn remove<R: Rounding>(rule: &R, states: &[State], greatest: usize, entries: &mut [u64])
    requires shares { weights states.now ≡ million }
    requires starting { Starting states.now }
    requires mostly { 500000 < first_weight states.now }
    requires certain { slice_index entries.old 0 ≡ full }
    requires falling { Falling entries.old }
    ensures entries { entries.new ≡ without (R.answer rule.now) states.now greatest entries.old }
    ensures certain { slice_index entries.new 0 ≡ full }
    ensures falling { Falling entries.new }
    ensures zeros { Zeros greatest entries.new }
    ensures error { (t scale : ℕ) (x : ℕ → ℕ) → Tail greatest x → Within t (scale * million) (mixture states.now x) entries.old → Within (removal_tolerance (first_weight states.now) t) scale x entries.new }
{
    let [first, rest @ ..] = states else {
        return;
    };
    for k in 0..entries.len() {
        let place = Place { entries, k };
        entries[k] = entry_without(rule, first, rest, greatest, &place);
    }
}
