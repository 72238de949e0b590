// Loads as a list that the caller holds.
ghost use Rattle.std.specs.Prelude.{◌≡◌};
ghost use Rattle.fleet.specs.Refusals.{Outcome};
ghost use Rattle.indices.specs.Loads.{all_within_limit};
ghost use Rattle.indices.specs.Peaks.{peaks_refusal, peaks_loads};
ghost use Rattle.indices.specs.BoundedLoads.{as_loads_bounded};

use super::{ABOVE_LIMIT, LOAD_LIMIT, LoadModel, MOST_DAYS, day_count};
use fleet::Refusal;

#[derive(Clone, Copy)]
pub struct Peaks<'a> {
    loads: &'a [u32],
}

// Whether no load is above the limit.
fn within_limit(loads: &[u32]) -> bool
    ensures { result ≡ all_within_limit loads.now }
{
    loads.iter().all(|load| *load <= LOAD_LIMIT)
}

impl<'a> Peaks<'a> {
    // A model of these loads, one for each day.
    pub fn new(loads: &'a [u32]) -> Result<Peaks<'a>, Refusal>
        ensures { Outcome (peaks_refusal loads.now) result (λ model. peaks_loads model ≡ loads.now) }
    {
        if !day_count(loads.len()) || !within_limit(loads) {
            return Err(Refusal::Loads);
        }
        Ok(Peaks { loads })
    }
}

impl<'a> LoadModel for Peaks<'a> {
    ghost loads = { peaks_loads };

    ghost bounded = { λ model. as_loads_bounded model.loads.now };

    fn days(&self) -> u32 {
        self.loads.len().clamp(1, MOST_DAYS as usize) as u32
    }

    fn load(&self, day: u32) -> u32 {
        let place = day as usize;
        if place >= self.loads.len().min(MOST_DAYS as usize) {
            return 0;
        }
        self.loads[place].min(ABOVE_LIMIT)
    }
}
