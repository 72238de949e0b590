// Forced outage rates from hours.
use crate::cases::number;
use indices::rate;
use std::test::Fail;

#[test]
fn rates_round_up(rt: HostRuntime) -> Result<(), Fail> {
    assert_eq!(rt; rate(10, 490)?, 20_000);
    assert_eq!(rt; rate(1, 2)?, 333_334);
    assert_eq!(rt; rate(0, 8_760)?, 0);
    assert_eq!(rt; rate(7, 0)?, 1_000_000);
    assert_eq!(rt; rate(1, 1_000_000)?, 1);
    assert_eq!(rt; rate(1_000_000, 1_000_000)?, 500_000);
    Ok(())
}

#[test]
fn hours_at_their_limits(rt: HostRuntime) {
    assert_eq!(rt; number(rate(0, 0)), 14);
    assert_eq!(rt; number(rate(1_000_001, 0)), 14);
    assert_eq!(rt; number(rate(0, 1_000_001)), 14);
    assert_eq!(rt; number(rate(u32::MAX, u32::MAX)), 14);
    assert_eq!(rt; number(rate(0, 1)), 0);
}
