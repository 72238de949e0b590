// Loads that fall along a straight line.
ghost use Rattle.std.specs.Prelude.{◌≡◌};
ghost use Rattle.fleet.specs.Refusals.{Outcome};
ghost use Rattle.indices.specs.StraightLine.{line_load, line_loads, line_refusal, loads_of_line};
ghost use Rattle.indices.specs.BoundedLoads.{as_loads_bounded};

use super::{ABOVE_LIMIT, LOAD_LIMIT, LoadModel, MOST_DAYS, day_count};
use fleet::Refusal;

#[derive(Clone, Copy)]
pub struct Line {
    days: u32,
    // the load of the first day
    high: u32,
    // the load of the last day, unless it is the first
    low: u32,
}

impl Line {
    // A model of so many days, whose load falls from high to low.
    pub fn new(days: u32, high: u32, low: u32) -> Result<Line, Refusal>
        ensures { Outcome (line_refusal days high low) result (λ model. loads_of_line model ≡ line_loads days high low) }
    {
        if !day_count(days as usize) || low > high || high > LOAD_LIMIT {
            return Err(Refusal::Loads);
        }
        Ok(Line { days, high, low })
    }

    // The load of a day: what it has fallen by since the first is rounded down.
    fn load_of(&self, day: u32) -> u32
        ensures { result ≡ line_load self.now.days self.now.high self.now.low day }
    {
        if self.days <= 1 {
            return self.high;
        }
        let fall = u64::from(self.high.saturating_sub(self.low));
        let fallen = u64::from(day) * fall / u64::from(self.days - 1);
        u64::from(self.high).saturating_sub(fallen) as u32
    }
}

impl LoadModel for Line {
    ghost loads = { loads_of_line };

    ghost bounded = { λ model. as_loads_bounded (line_loads model.days model.high model.low) };

    fn days(&self) -> u32 {
        self.days.clamp(1, MOST_DAYS)
    }

    fn load(&self, day: u32) -> u32 {
        if day >= self.days.min(MOST_DAYS) {
            return 0;
        }
        self.load_of(day).min(ABOVE_LIMIT)
    }
}
