// A state of a generating unit: how many steps of capacity are out, and how likely that is.

// The default, a state without weight, is what a vector has in its unused places.
#[derive(Clone, Copy, PartialEq, Eq, Debug, Default)]
pub struct State {
    // steps of capacity that are out
    pub outage: u32,
    // probability of the state, in millionths
    pub weight: u32,
}
