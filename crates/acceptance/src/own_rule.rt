// A rule that is not among those delivered: it shows that a user can bring one.
ghost use Rattle.rounding.specs.Rule.{divided};
ghost use Rattle.std.specs.Prelude.{◌*◌, nat_lt};
ghost use Rattle.acceptance.specs.HalfDown.{half_down_close, half_down_rising};

use fleet::Fleet;
use rounding::{Rounding, State};
use std::test::Fail;

// The nearest whole number; a half goes down. All of it is written here, as by someone who has the
// trait alone.
#[derive(Clone, Copy)]
struct HalfDown;

impl Rounding for HalfDown {
    ghost answer = { λ _. divided (λ remainder divisor. nat_lt divisor (2 * remainder)) };

    ghost close = { λ rule. half_down_close };

    ghost rising = { λ rule. half_down_rising };

    fn round(&self, amount: u64, divisor: u32) -> u64 {
        if divisor == 0 {
            return 0;
        }
        let divisor = u64::from(divisor);
        let quotient = amount / divisor;
        if 2 * (amount % divisor) > divisor {
            quotient + 1
        } else {
            quotient
        }
    }
}

#[test]
fn a_rule_of_ones_own(rt: HostRuntime) -> Result<(), Fail> {
    let half = State {
        outage: 0,
        weight: 500_000,
    };
    let other = State {
        outage: 1,
        weight: 500_000,
    };
    let rare = State {
        outage: 2,
        weight: 1,
    };
    let often = State {
        outage: 0,
        weight: 999_999,
    };
    let mut fleet = Fleet::open();
    assert_eq!(rt; fleet.add(&HalfDown, 1, 2, &[often, rare])?, 1);
    assert_eq!(rt; fleet.add(&HalfDown, 2, 1, &[half, other])?, 2);
    assert_eq!(rt; fleet.entry(2)?, (1_000_000, 2));
    assert_eq!(rt; fleet.add(&HalfDown, 3, 2, &[often, rare])?, 3);
    assert_eq!(rt; fleet.entry(5)?, (0, 3), "half a part goes down");
    Ok(())
}
