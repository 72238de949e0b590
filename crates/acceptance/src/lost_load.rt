// The expected days of lost load.
use crate::cases::{SURE, number, one_step, three_units, two_units};
use crate::maintenance::eight_units;
use fleet::Fleet;
use indices::{Growth, Line, Peaks, days};
use rounding::{FULL, Nearest, Up};
use std::test::Fail;

// The days of lost load, and their bound, for a list of loads.
fn lost(fleet: &Fleet, loads: &[u32]) -> Result<(u64, u64), Fail> {
    Ok(days(fleet, &Peaks::new(loads)?)?)
}

#[test]
fn two_units_through_three_days(rt: HostRuntime) -> Result<(), Fail> {
    let fleet = two_units(&rt)?;
    assert_eq!(rt; lost(&fleet, &[6, 4, 3])?, (79_600_000_000, 6));
    Ok(())
}

#[test]
fn an_open_fleet_meets_no_load(rt: HostRuntime) -> Result<(), Fail> {
    let fleet = Fleet::open();
    assert_eq!(rt; lost(&fleet, &[0])?, (0, 0));
    assert_eq!(rt; lost(&fleet, &[1])?, (FULL, 0));
    assert_eq!(rt; lost(&fleet, &[2])?, (FULL, 0), "a place below 0");
    assert_eq!(rt; lost(&fleet, &[1_000, 0, 1])?, (2 * FULL, 0));
    Ok(())
}

// With one unit of 3 out, 3 are available: a load of 3 is met, and one of 4 is not.
#[test]
fn a_load_equal_to_what_is_available_is_met(rt: HostRuntime) -> Result<(), Fail> {
    let fleet = two_units(&rt)?;
    assert_eq!(rt; lost(&fleet, &[3])?, (400_000_000, 2));
    assert_eq!(rt; lost(&fleet, &[4])?, (39_600_000_000, 2));
    assert_eq!(rt; lost(&fleet, &[6])?, (39_600_000_000, 2));
    assert_eq!(rt; lost(&fleet, &[7])?, (FULL, 2));
    Ok(())
}

// The table ends at place 1,000, and a load of 0 asks for place 1,001.
#[test]
fn a_fleet_of_the_greatest_capacity(rt: HostRuntime) -> Result<(), Fail> {
    let mut fleet = Fleet::open();
    assert_eq!(rt; fleet.add(&Nearest, 1, 1_000, &SURE)?, 1);
    assert_eq!(rt; lost(&fleet, &[0])?, (0, 1));
    assert_eq!(rt; lost(&fleet, &[1_000, 0])?, (0, 2));
    Ok(())
}

#[test]
fn capacity_under_maintenance_is_no_reserve(rt: HostRuntime) -> Result<(), Fail> {
    let mut fleet = three_units(&rt)?;
    assert_eq!(rt; lost(&fleet, &[6, 4, 3])?, (967_600_000, 9));
    assert_eq!(rt; fleet.withdraw(&Nearest, 3)?, 5);
    assert_eq!(rt; lost(&fleet, &[6, 4, 3])?, (79_600_000_000, 15));
    Ok(())
}

#[test]
fn growth_costs_days(rt: HostRuntime) -> Result<(), Fail> {
    let fleet = two_units(&rt)?;
    let loads = [6, 4, 3];
    let peaks = Peaks::new(&loads)?;
    let grown = Growth::new(&peaks, 110)?;
    assert_eq!(rt; days(&fleet, &grown)?, (1_079_200_000_000, 6));
    Ok(())
}

#[test]
fn a_load_above_the_limit_is_refused(rt: HostRuntime) -> Result<(), Fail> {
    let fleet = two_units(&rt)?;
    let loads = [6, 1_000, 3];
    let peaks = Peaks::new(&loads)?;
    assert_eq!(rt; number(days(&fleet, &peaks)), 0);
    assert_eq!(rt; number(days(&fleet, &Growth::new(&peaks, 101)?)), 13);
    assert_eq!(rt; lost(&fleet, &[6, 4, 3])?, (79_600_000_000, 6));
    Ok(())
}

// The greatest number of days, at a tolerance of 750,001.
#[test]
fn a_bound_of_many_days(rt: HostRuntime) -> Result<(), Fail> {
    let mut fleet = Fleet::open();
    assert_eq!(rt; fleet.add(&Nearest, 1, 1, &one_step(499_999))?, 1);
    assert_eq!(rt; fleet.withdraw(&Nearest, 1)?, 750_001);
    let line = Line::new(8_784, 1, 1)?;
    assert_eq!(rt; days(&fleet, &line)?, (8_784 * FULL, 6_588_008_784));
    Ok(())
}

// Eight units and a year that falls from 58 to 25. The digits come from a separate program.
#[test]
fn a_year_of_eight_units(rt: HostRuntime) -> Result<(), Fail> {
    let mut fleet = eight_units(&rt)?;
    let year = Line::new(365, 58, 25)?;
    let grown = Growth::new(&year, 107)?;
    assert_eq!(rt; days(&fleet, &year)?, (11_708_650_767_958, 2_920));
    assert_eq!(rt; days(&fleet, &grown)?, (38_406_189_871_289, 2_920));
    assert_eq!(rt;
        days(&fleet, &Growth::new(&grown, 93)?)?,
        (12_940_508_765_551, 2_920)
    );
    assert_eq!(rt; fleet.withdraw(&Up, 3)?, 10);
    assert_eq!(rt; days(&fleet, &year)?, (59_069_290_604_222, 3_650));
    Ok(())
}
