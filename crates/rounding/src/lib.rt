// Rounding rules, and the recursion that adds a unit to a capacity outage table, with its reverse.
#![tactic(auto)]

mod place;
mod removal;
mod rule;
mod rules;
mod state;
mod table;

pub use removal::remove;
pub use rule::Rounding;
pub use rules::{Down, Nearest, Up};
pub use state::State;
pub use table::{FULL, MILLION, add};
