// Calls on registered units at the edge of each refusal. A refused call leaves the fleet as it stood.
use crate::cases::{SURE, THREE, number, one_step, refused};
use fleet::Fleet;
use rounding::{Down, FULL, Nearest};
use std::process::Abort;
use std::test::Fail;

#[test]
fn an_identity_that_is_not_registered(rt: HostRuntime) -> Result<(), Fail> {
    let mut fleet = Fleet::open();
    assert_eq!(rt; number(fleet.withdraw(&Nearest, 1)), 7);
    assert_eq!(rt; fleet.add(&Nearest, 1, 3, &THREE)?, 1);
    assert_eq!(rt; number(fleet.withdraw(&Nearest, 2)), 7);
    assert_eq!(rt; number(fleet.return_unit(&Nearest, 2)), 7);
    assert_eq!(rt; number(fleet.retire(2)), 7);
    assert_eq!(rt; number(fleet.retire(0)), 7);
    assert_eq!(rt; number(fleet.withdraw(&Nearest, u32::MAX)), 7);
    assert_eq!(rt; fleet.entry(3)?, (20_000_000_000, 1));
    Ok(())
}

#[test]
fn a_unit_that_stands_otherwise(rt: HostRuntime) -> Result<(), Fail> {
    let mut fleet = Fleet::open();
    assert_eq!(rt; fleet.add(&Nearest, 1, 3, &THREE)?, 1);
    assert_eq!(rt; number(fleet.return_unit(&Nearest, 1)), 8);
    assert_eq!(rt; number(fleet.retire(1)), 8);
    assert_eq!(rt; fleet.withdraw(&Nearest, 1)?, 3);
    assert_eq!(rt; number(fleet.withdraw(&Nearest, 1)), 8);
    assert_eq!(rt; fleet.unit(1), Some((3, 0)));
    assert_eq!(rt; fleet.return_unit(&Nearest, 1)?, 4);
    assert_eq!(rt; number(fleet.retire(1)), 8);
    assert_eq!(rt; fleet.unit(1), Some((3, 1)));
    assert_eq!(rt; fleet.entry(3)?, (20_000_000_000, 4));
    Ok(())
}

#[test]
fn half_the_weight_in_the_first_state(rt: HostRuntime) -> Result<(), Fail> {
    let mut fleet = Fleet::open();
    assert_eq!(rt; fleet.add(&Nearest, 1, 1, &one_step(500_000))?, 1);
    assert_eq!(rt; number(fleet.withdraw(&Nearest, 1)), 9);
    assert_eq!(rt; fleet.entry(1)?, (500_000_000_000, 1));
    assert_eq!(rt; fleet.unit(1), Some((1, 1)));
    let mut lone = Fleet::open();
    assert_eq!(rt; lone.add(&Nearest, 1, 1, &one_step(499_999))?, 1);
    assert_eq!(rt; lone.withdraw(&Nearest, 1)?, 750_001);
    assert_eq!(rt; lone.entry(0)?, (FULL, 750_001));
    assert_eq!(rt; lone.entry(1)?, (0, 750_001));
    Ok(())
}

#[test]
fn a_withdrawal_that_would_pass_the_limit(rt: HostRuntime) -> Result<(), Fail> {
    let mut fleet = Fleet::open();
    assert_eq!(rt; fleet.add(&Nearest, 1, 1, &one_step(499_999))?, 1);
    assert_eq!(rt; fleet.add(&Nearest, 2, 3, &THREE)?, 2);
    assert_eq!(rt; number(fleet.withdraw(&Nearest, 1)), 10);
    assert_eq!(rt; fleet.unit(1), Some((1, 1)));
    assert_eq!(rt; fleet.capacity(), 4);
    assert_eq!(rt; fleet.entry(1)?, (509_999_020_000, 2));
    assert_eq!(rt; fleet.entry(4)?, (9_999_980_000, 2));
    assert_eq!(rt; fleet.withdraw(&Nearest, 2)?, 4, "another unit can go");
    Ok(())
}

// A fleet whose tolerance is at its limit: unit 1 in service, unit 2 out.
fn at_the_limit(rt: &impl Abort) -> Result<Fleet, Fail> {
    let mut fleet = Fleet::open();
    assert_eq!(rt; fleet.add(&Nearest, 1, 1, &one_step(499_999))?, 1);
    assert_eq!(rt; fleet.withdraw(&Nearest, 1)?, 750_001);
    assert_eq!(rt; fleet.add(&Nearest, 2, 1, &one_step(124_998))?, 750_002);
    assert_eq!(rt; fleet.withdraw(&Nearest, 2)?, 999_999);
    assert_eq!(rt; fleet.return_unit(&Nearest, 1)?, 1_000_000);
    Ok(fleet)
}

#[test]
fn the_tolerance_stops_at_a_million(rt: HostRuntime) -> Result<(), Fail> {
    let mut fleet = at_the_limit(&rt)?;
    assert_eq!(rt; number(fleet.return_unit(&Down, 2)), 10);
    assert_eq!(rt; number(fleet.return_unit(&Down, 1)), 8, "8 comes before 10");
    assert_eq!(rt; number(fleet.withdraw(&Down, 1)), 10);
    assert_eq!(rt; refused(&mut fleet, 3, 3, &THREE), 10);
    assert_eq!(rt; refused(&mut fleet, 2, 3, &THREE), 4, "4 comes before 10");
    assert_eq!(rt; fleet.entry(1)?, (499_999_000_000, 1_000_000));
    assert_eq!(rt; fleet.unit(1), Some((1, 1)));
    assert_eq!(rt; fleet.unit(2), Some((1, 0)));
    assert_eq!(rt; fleet.unit(3), None);
    assert_eq!(rt; fleet.retire(2)?, 1, "retiring leaves the tolerance alone");
    assert_eq!(rt; fleet.rebuild(&Down), 1);
    assert_eq!(rt; fleet.add(&Down, 3, 3, &THREE)?, 2);
    Ok(())
}

#[test]
fn a_unit_out_keeps_its_capacity_registered(rt: HostRuntime) -> Result<(), Fail> {
    let mut fleet = Fleet::open();
    assert_eq!(rt; fleet.add(&Nearest, 1, 600, &SURE)?, 1);
    assert_eq!(rt; fleet.add(&Nearest, 2, 400, &SURE)?, 2);
    assert_eq!(rt; fleet.withdraw(&Nearest, 2)?, 3);
    assert_eq!(rt; fleet.capacity(), 600);
    assert_eq!(rt; refused(&mut fleet, 3, 1, &SURE), 6);
    assert_eq!(rt; refused(&mut fleet, 2, 400, &SURE), 4);
    assert_eq!(rt; fleet.retire(2)?, 1);
    assert_eq!(rt; refused(&mut fleet, 3, 401, &SURE), 6);
    assert_eq!(rt; refused(&mut fleet, 3, 400, &SURE), 0);
    assert_eq!(rt; fleet.capacity(), 1_000);
    Ok(())
}

#[test]
fn a_retired_unit_frees_its_place(rt: HostRuntime) -> Result<(), Fail> {
    let mut fleet = Fleet::open();
    for identity in 1..=64u32 {
        assert_eq!(rt; fleet.add(&Nearest, identity, 1, &SURE)?, identity);
    }
    assert_eq!(rt; fleet.withdraw(&Nearest, 1)?, 65);
    assert_eq!(rt; refused(&mut fleet, 65, 1, &SURE), 5);
    assert_eq!(rt; fleet.retire(1)?, 63);
    assert_eq!(rt; fleet.unit(1), None);
    assert_eq!(rt; fleet.unit(2), Some((1, 1)));
    assert_eq!(rt; fleet.unit(64), Some((1, 1)));
    assert_eq!(rt; refused(&mut fleet, 65, 1, &SURE), 0);
    assert_eq!(rt; fleet.unit(65), Some((1, 1)));
    assert_eq!(rt; refused(&mut fleet, 66, 1, &SURE), 5);
    Ok(())
}
