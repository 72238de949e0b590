// The expected days of lost load.
ghost use Rattle.std.specs.Prelude.{◌≡◌, ◌≤◌, slice_index};
ghost use Rattle.fleet.specs.Refusals.{Outcome};
ghost use Rattle.fleet.specs.Units.{capacity as service_capacity};
ghost use Rattle.fleet.specs.Fleets.{ledger_of};
ghost use Rattle.indices.specs.Days.{loss as loss_of, load_refusal, limit_refusal, Days};

use crate::loads::{LOAD_LIMIT, LoadModel};
use fleet::{Fleet, Refusal};

// The load of a day, unless it is above the limit.
fn load_on<L: LoadModel>(model: &L, day: u32) -> Result<u32, Refusal>
    ensures { Outcome (load_refusal (slice_index (L.loads model.now) day)) result (λ load. load ≡ slice_index (L.loads model.now) day) }
{
    let load = model.load(day);
    if load > LOAD_LIMIT {
        return Err(Refusal::AboveLimit);
    }
    Ok(load)
}

// How likely it is that a load is lost, together with the tolerance.
fn loss(fleet: &Fleet, capacity: u32, load: u32) -> (u64, u32)
    requires in_service { capacity ≡ service_capacity (ledger_of fleet.now).units }
    requires held { capacity ≤ 1000 }
    ensures parts { result.0 ≡ loss_of (ledger_of fleet.now) load }
    ensures tolerance { result.1 ≡ (ledger_of fleet.now).tolerance }
{
    let Ok((certain, tolerance)) = fleet.entry(0) else {
        unreachable!()
    };
    // one step more is out than the capacity has to spare, if the load is met with nothing out
    let Some(place) = (capacity + 1).checked_sub(load) else {
        return (certain, tolerance);
    };
    match fleet.entry(place) {
        Ok(answer) => answer,
        // the table ends at place 1,000
        Err(_) => (0, tolerance),
    }
}

// The sum over the days of how likely it is that the day's load is lost, in parts, together with
// the bound of its error.
pub fn days<L: LoadModel>(fleet: &Fleet, model: &L) -> Result<(u64, u64), Refusal>
    ensures { Outcome (limit_refusal (L.loads model.now)) result (λ answer. Days (ledger_of fleet.now) (L.loads model.now) answer) }
{
    let capacity = fleet.capacity();
    let mut sum: u64 = 0;
    let mut bound: u64 = 0;
    for day in 0..model.days() {
        let load = load_on(model, day)?;
        let (parts, tolerance) = loss(fleet, capacity, load);
        sum += parts;
        bound += u64::from(tolerance);
    }
    Ok((sum, bound))
}
