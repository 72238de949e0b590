// Load models, and unit sheets: from bytes to rows, and from rows to units of a fleet, up to the
// first fault.
#![tactic(auto)]

mod byte;
mod fault;
mod field;
mod line;
mod loads;
mod lost_load;
mod names;
mod outage_rate;
mod row;
mod sheet;
mod text;
mod unit_intake;

pub use fault::{Fault, Reason};
pub use loads::{ABOVE_LIMIT, Growth, LOAD_LIMIT, Line, LoadModel, MOST_DAYS, Peaks};
pub use lost_load::days;
pub use outage_rate::rate;
pub use unit_intake::{Stopped, intake};
