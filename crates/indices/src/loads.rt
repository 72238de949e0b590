// Load models: the load of each day of a study, in steps.
ghost use Rattle.std.specs.Prelude.{◌≡◌, ℕ, List, length, slice_index};
ghost use Rattle.indices.specs.Loads.{day_count, Bounded};

mod growth;
mod line;
mod peaks;

pub use growth::Growth;
pub use line::Line;
pub use peaks::Peaks;

// The most days of a study: the hours of a leap year.
pub const MOST_DAYS: u32 = 8_784;

// The greatest load, in steps.
pub const LOAD_LIMIT: u32 = 1_000;

// The load that stands for one above the limit: a model tells plain loads, and marks such a one.
pub const ABOVE_LIMIT: u32 = 1_001;

// Whether a study may have so many days.
fn day_count(days: usize) -> bool
    ensures { result ≡ day_count days }
{
    (1..=MOST_DAYS as usize).contains(&days)
}

pub trait LoadModel {
    // the loads that the model means, the first day first
    ghost loads: { Self → List ℕ };

    // what each model proves: 1 to 8,784 loads, each at most 1,001
    ghost bounded: { (model : Self) → Bounded (loads model) };

    // How many days there are.
    fn days(&self) -> u32
        ensures { result ≡ length (loads self.now) };

    // The load of a day, counted from 0; past the last day it is 0.
    fn load(&self, day: u32) -> u32
        ensures { result ≡ slice_index (loads self.now) day };
}
