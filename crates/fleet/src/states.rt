// The check of a unit's states.
ghost use Rattle.std.specs.Prelude.{◌≡◌, ◌≤◌, length};
ghost use Rattle.rounding.specs.Mixture.{weights};
ghost use Rattle.fleet.specs.States.{starts as state_starts, follows as state_follows, later as later_states, lawful as lawful_states};

use rounding::{MILLION, State};

// A unit has at most this many states.
pub const STATES: usize = 8;

// The sum of the weights of at most eight states.
fn total_weight(states: &[State]) -> u64
    requires { length states.now ≤ 8 }
    ensures { result ≡ weights states.now }
{
    states.iter().map(|state| u64::from(state.weight)).sum()
}

// Whether a state may stand after one with the outage `before`.
fn follows(capacity: u32, before: u32, state: State) -> bool
    ensures { result ≡ state_follows capacity before state }
{
    before < state.outage && state.outage <= capacity && state.weight >= 1
}

// Whether each of the states after the first may stand where it does.
fn later(capacity: u32, first_outage: u32, rest: &[State]) -> bool
    ensures { result ≡ later_states capacity first_outage rest.now }
{
    let mut before = first_outage;
    for state in rest {
        if !follows(capacity, before, *state) {
            return false;
        }
        before = state.outage;
    }
    true
}

// Whether a state may stand first.
fn starts(state: State) -> bool
    ensures { result ≡ state_starts state }
{
    state.outage == 0 && state.weight >= 1
}

// Whether the states keep every rule for a unit of this capacity.
pub(crate) fn lawful(capacity: u32, states: &[State]) -> bool
    ensures { result ≡ lawful_states capacity states.now }
{
    let [first, rest @ ..] = states else {
        return false;
    };
    if states.len() > STATES {
        return false;
    }
    starts(*first)
        && later(capacity, first.outage, rest)
        && total_weight(states) == u64::from(MILLION)
}
