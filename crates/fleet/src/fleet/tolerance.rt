// The tolerance after each way of rounding a table anew, and its limit.
ghost use Rattle.std.specs.Prelude.{◌≡◌, ◌≤◌};
ghost use Rattle.rounding.specs.Tolerance.{raised as raised_by_one, removal_tolerance};
ghost use Rattle.fleet.specs.Refusals.{first, Outcome};
ghost use Rattle.fleet.specs.Limits.{tolerance_refusal};
ghost use Rattle.fleet.specs.Withdrawing.{weight_refusal};

use crate::refusal::Refusal;
use rounding::{MILLION, Rounding, Up};

// The greatest tolerance, in parts.
const TOLERANCE: u32 = 1_000_000;

// With no more than this weight in the first state the formula for the tolerance has no divisor
// above 0: nothing would bound the error.
const HALF: u32 = 500_000;

// The tolerance after one more rounding of the whole table.
pub(super) fn raised(tolerance: u32) -> Result<u32, Refusal>
    requires { tolerance ≤ 1000000 }
    ensures { Outcome (tolerance_refusal (raised_by_one tolerance)) result (λ t. t ≡ raised_by_one tolerance) }
{
    if tolerance + 1 > TOLERANCE {
        return Err(Refusal::Tolerance);
    }
    Ok(tolerance + 1)
}

// The tolerance after a unit is taken out of the table, by the weight of its first state.
pub(super) fn after_removal(tolerance: u32, weight: u32) -> Result<u32, Refusal>
    requires tolerance { tolerance ≤ 1000000 }
    requires weight { weight ≤ 1000000 }
    ensures { Outcome (first (weight_refusal weight) (tolerance_refusal (removal_tolerance weight tolerance))) result (λ t. t ≡ removal_tolerance weight tolerance) }
{
    if weight <= HALF {
        return Err(Refusal::FirstWeight);
    }
    let amount = u64::from(MILLION) * u64::from(tolerance) + u64::from(weight);
    let raised = Up.round(amount, 2 * weight - MILLION);
    if raised > u64::from(TOLERANCE) {
        return Err(Refusal::Tolerance);
    }
    Ok(raised as u32)
}
