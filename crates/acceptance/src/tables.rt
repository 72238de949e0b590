// Tables that can be recomputed by hand.
use crate::cases::{check_entries, check_two_units, rare_units, three_units, two_units};
use fleet::Fleet;
use rounding::{Down, FULL, Nearest, Rounding, Up};
use std::process::Abort;
use std::test::Fail;

#[test]
fn an_open_fleet_has_nothing_out(rt: HostRuntime) -> Result<(), Fail> {
    let fleet = Fleet::open();
    check_entries(&rt, &fleet, 0, &[(0, FULL), (1, 0), (1_000, 0)])?;
    assert_eq!(rt; fleet.capacity(), 0);
    assert_eq!(rt; fleet.greatest_outage(), 0);
    Ok(())
}

#[test]
fn two_units_of_three(rt: HostRuntime) -> Result<(), Fail> {
    let fleet = two_units(&rt)?;
    check_two_units(&rt, &fleet, 2)
}

#[test]
fn a_unit_with_a_partial_outage(rt: HostRuntime) -> Result<(), Fail> {
    let fleet = three_units(&rt)?;
    check_entries(
        &rt,
        &fleet,
        3,
        &[
            (2, 78_016_000_000),
            (3, 46_322_800_000),
            (5, 8_690_800_000),
            (6, 674_400_000),
            (8, 290_400_000),
            (11, 2_800_000),
            (12, 0),
        ],
    )?;
    assert_eq!(rt; fleet.unit(3), Some((5, 1)));
    assert_eq!(rt; fleet.unit(4), None);
    assert_eq!(rt; fleet.capacity(), 11);
    assert_eq!(rt; fleet.greatest_outage(), 11);
    Ok(())
}

// The entries of three rare outages.
fn rare_outages<R: Rounding>(
    rt: &impl Abort,
    rule: &R,
    one: u64,
    two: u64,
    three: u64,
) -> Result<(), Fail> {
    let fleet = rare_units(rt, rule)?;
    check_entries(
        rt,
        &fleet,
        3,
        &[(0, FULL), (1, one), (2, two), (3, three), (4, 0)],
    )
}

#[test]
fn rare_outages_down(rt: HostRuntime) -> Result<(), Fail> {
    rare_outages(&rt, &Down, 2_999_997, 2, 0)
}

#[test]
fn rare_outages_up(rt: HostRuntime) -> Result<(), Fail> {
    rare_outages(&rt, &Up, 2_999_998, 3, 1)
}

#[test]
fn rare_outages_nearest(rt: HostRuntime) -> Result<(), Fail> {
    rare_outages(&rt, &Nearest, 2_999_997, 3, 0)
}

#[test]
fn rules_at_their_edges(rt: HostRuntime) {
    assert_eq!(rt; Down.round(7, 2), 3);
    assert_eq!(rt; Up.round(7, 2), 4);
    assert_eq!(rt; Nearest.round(7, 2), 4);
    assert_eq!(rt; Nearest.round(4, 3), 1);
    assert_eq!(rt; Nearest.round(5, 3), 2);
    assert_eq!(rt; Up.round(6, 3), 2);
    assert_eq!(rt; Up.round(u64::MAX, 1), u64::MAX);
    assert_eq!(rt; Nearest.round(u64::MAX, 2), 9_223_372_036_854_775_808);
    assert_eq!(rt; Down.round(7, 0), 0);
    assert_eq!(rt; Up.round(7, 0), 0);
    assert_eq!(rt; Nearest.round(7, 0), 0);
}
