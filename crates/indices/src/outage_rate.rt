// The forced outage rate of a unit, from its forced and its service hours.
ghost use Rattle.std.specs.Prelude.{◌≡◌};
ghost use Rattle.fleet.specs.Refusals.{Outcome};
ghost use Rattle.indices.specs.Rate.{forced_outage_rate, hours_refusal};

use fleet::Refusal;
use rounding::{MILLION, Rounding, Up};

// The most hours of a kind.
const HOURS: u32 = 1_000_000;

// The share of the forced hours in all hours, in millionths, rounded up: the weight of a full
// outage.
pub fn rate(forced: u32, service: u32) -> Result<u32, Refusal>
    ensures { Outcome (hours_refusal forced service) result (λ weight. weight ≡ forced_outage_rate forced service) }
{
    if forced > HOURS || service > HOURS || forced + service == 0 {
        return Err(Refusal::Hours);
    }
    let amount = u64::from(forced) * u64::from(MILLION);
    Ok(Up.round(amount, forced + service) as u32)
}
