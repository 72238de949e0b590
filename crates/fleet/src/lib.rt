// A fleet of generating units: its register, its capacity outage table and the table's tolerance.
#![tactic(auto)]

mod fleet;
mod record;
mod refusal;
mod register;
mod states;
mod table;

pub use fleet::Fleet;
pub use refusal::Refusal;
