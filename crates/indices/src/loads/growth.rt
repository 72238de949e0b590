// The loads of any model, grown by a percentage.
ghost use Rattle.std.specs.Prelude.{◌≡◌};
ghost use Rattle.fleet.specs.Refusals.{Outcome};
ghost use Rattle.indices.specs.Growing.{grown as grown_load, grown_loads, percent_refusal, growth_loads};
ghost use Rattle.indices.specs.BoundedLoads.{grown_bounded};

use super::{ABOVE_LIMIT, LOAD_LIMIT, LoadModel};
use fleet::Refusal;
use rounding::{Rounding, Up};

// The greatest percentage.
const MOST_PERCENT: u32 = 300;

#[derive_where(Clone, Copy)]
pub struct Growth<'a, L> {
    below: &'a L,
    percent: u32,
}

// A load after growth, rounded up.
fn grown(percent: u32, load: u32) -> u32
    ensures { result ≡ grown_load percent load }
{
    if load > LOAD_LIMIT {
        return ABOVE_LIMIT;
    }
    let amount = u64::from(load) * u64::from(percent);
    Up.round(amount, 100).min(u64::from(ABOVE_LIMIT)) as u32
}

impl<'a, L: LoadModel> Growth<'a, L> {
    // A model of the loads of the model below, each grown by the same percentage.
    pub fn new(below: &'a L, percent: u32) -> Result<Growth<'a, L>, Refusal>
        ensures { Outcome (percent_refusal percent) result (λ model. growth_loads L.loads model ≡ grown_loads percent (L.loads below.now)) }
    {
        if !(1..=MOST_PERCENT).contains(&percent) {
            return Err(Refusal::Loads);
        }
        Ok(Growth { below, percent })
    }
}

impl<'a, L: LoadModel> LoadModel for Growth<'a, L> {
    ghost loads = { λ model. growth_loads L.LoadModel.loads model };

    ghost bounded = { λ model. grown_bounded model.percent _ (L.LoadModel.bounded model.below.now) };

    fn days(&self) -> u32 {
        self.below.days()
    }

    fn load(&self, day: u32) -> u32 {
        grown(self.percent, self.below.load(day))
    }
}
