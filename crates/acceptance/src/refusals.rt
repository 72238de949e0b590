// Each refusal at its edge, and one step inside.
use crate::cases::{SURE, THREE, refused, refused_by_open};
use fleet::{Fleet, Refusal};
use rounding::{Nearest, State};
use std::test::Fail;

fn state(outage: u32, weight: u32) -> State {
    State { outage, weight }
}

#[test]
fn identities(rt: HostRuntime) {
    assert_eq!(rt; refused_by_open(0, 3, &THREE), 1);
    assert_eq!(rt; refused_by_open(1, 3, &THREE), 0);
    assert_eq!(rt; refused_by_open(65_535, 3, &THREE), 0);
    assert_eq!(rt; refused_by_open(65_536, 3, &THREE), 1);
}

#[test]
fn capacities(rt: HostRuntime) {
    assert_eq!(rt; refused_by_open(1, 0, &SURE), 2);
    assert_eq!(rt; refused_by_open(1, 1, &SURE), 0);
    assert_eq!(rt; refused_by_open(1, 1_000, &SURE), 0);
    assert_eq!(rt; refused_by_open(1, 1_001, &SURE), 2);
}

#[test]
fn numbers_of_states(rt: HostRuntime) {
    let rare = [
        state(0, 999_993),
        state(1, 1),
        state(2, 1),
        state(3, 1),
        state(4, 1),
        state(5, 1),
        state(6, 1),
        state(7, 1),
    ];
    let one_more = [
        state(0, 999_992),
        state(1, 1),
        state(2, 1),
        state(3, 1),
        state(4, 1),
        state(5, 1),
        state(6, 1),
        state(7, 1),
        state(8, 1),
    ];
    assert_eq!(rt; refused_by_open(1, 9, &[]), 3);
    assert_eq!(rt; refused_by_open(1, 9, &SURE), 0);
    assert_eq!(rt; refused_by_open(1, 9, &rare), 0);
    assert_eq!(rt; refused_by_open(1, 9, &one_more), 3);
}

#[test]
fn outages_of_states(rt: HostRuntime) {
    let half = 500_000;
    assert_eq!(rt; refused_by_open(1, 3, &[state(1, 1_000_000)]), 3);
    assert_eq!(rt; refused_by_open(1, 3, &[state(0, half), state(0, half)]), 3);
    assert_eq!(rt; refused_by_open(1, 3, &[state(0, half), state(1, half)]), 0);
    assert_eq!(rt; refused_by_open(1, 3, &[state(0, half), state(3, half)]), 0);
    assert_eq!(rt; refused_by_open(1, 3, &[state(0, half), state(4, half)]), 3);
    let level = [state(0, half), state(2, 250_000), state(2, 250_000)];
    assert_eq!(rt; refused_by_open(1, 3, &level), 3);
    let falling = [state(0, half), state(2, 250_000), state(1, 250_000)];
    assert_eq!(rt; refused_by_open(1, 3, &falling), 3);
    let rising = [state(0, half), state(1, 250_000), state(2, 250_000)];
    assert_eq!(rt; refused_by_open(1, 3, &rising), 0);
}

#[test]
fn weights_of_states(rt: HostRuntime) {
    assert_eq!(rt;
        refused_by_open(1, 3, &[state(0, 0), state(1, 1_000_000)]),
        3
    );
    assert_eq!(rt; refused_by_open(1, 3, &[state(0, 1), state(1, 999_999)]), 0);
    assert_eq!(rt;
        refused_by_open(1, 3, &[state(0, 1_000_000), state(1, 0)]),
        3
    );
    assert_eq!(rt; refused_by_open(1, 3, &[state(0, 999_999)]), 3);
    assert_eq!(rt; refused_by_open(1, 3, &[state(0, 1_000_001)]), 3);
    assert_eq!(rt;
        refused_by_open(1, 3, &[state(0, u32::MAX), state(1, u32::MAX)]),
        3
    );
}

#[test]
fn a_registered_identity(rt: HostRuntime) -> Result<(), Fail> {
    let mut fleet = Fleet::open();
    assert_eq!(rt; refused(&mut fleet, 7, 3, &THREE), 0);
    assert_eq!(rt; refused(&mut fleet, 7, 3, &THREE), 4);
    assert_eq!(rt;
        fleet.entry(3)?,
        (20_000_000_000, 1),
        "the fleet is as it stood"
    );
    assert_eq!(rt; refused(&mut fleet, 8, 3, &THREE), 0);
    assert_eq!(rt; refused(&mut fleet, 7, 3, &THREE), 4);
    Ok(())
}

#[test]
fn at_most_64_units(rt: HostRuntime) -> Result<(), Fail> {
    let mut fleet = Fleet::open();
    for identity in 1..=63u32 {
        assert_eq!(rt; fleet.add(&Nearest, identity, 1, &SURE)?, identity);
    }
    assert_eq!(rt; fleet.add(&Nearest, 64, 1, &SURE)?, 64);
    assert_eq!(rt; refused(&mut fleet, 65, 1, &SURE), 5);
    assert_eq!(rt; refused(&mut fleet, 64, 1, &SURE), 4, "4 comes before 5");
    assert_eq!(rt;
        refused(&mut fleet, 65, 1_000, &SURE),
        5,
        "5 comes before 6"
    );
    assert_eq!(rt; fleet.entry(0)?, (1_000_000_000_000, 64));
    assert_eq!(rt; fleet.unit(65), None);
    Ok(())
}

#[test]
fn at_most_1000_steps(rt: HostRuntime) {
    let mut fleet = Fleet::open();
    assert_eq!(rt; refused(&mut fleet, 1, 600, &SURE), 0);
    assert_eq!(rt; refused(&mut fleet, 2, 401, &SURE), 6);
    assert_eq!(rt; refused(&mut fleet, 2, 400, &SURE), 0);
    assert_eq!(rt; refused(&mut fleet, 3, 1, &SURE), 6);
    assert_eq!(rt; fleet.capacity(), 1_000);
}

#[test]
fn the_first_rule_that_is_broken_counts(rt: HostRuntime) {
    assert_eq!(rt; refused_by_open(0, 0, &[]), 1);
    assert_eq!(rt; refused_by_open(1, 0, &[]), 2);
    assert_eq!(rt; refused_by_open(1, 1, &[]), 3);
    let mut fleet = Fleet::open();
    assert_eq!(rt; refused(&mut fleet, 1, 1_000, &SURE), 0);
    assert_eq!(rt; refused(&mut fleet, 1, 1, &[]), 3);
    assert_eq!(rt; refused(&mut fleet, 1, 1, &SURE), 4);
    assert_eq!(rt; refused(&mut fleet, 2, 1, &SURE), 6);
}

#[test]
fn places(rt: HostRuntime) -> Result<(), Fail> {
    let fleet = Fleet::open();
    assert_eq!(rt; fleet.entry(1_000)?, (0, 0));
    assert_eq!(rt; fleet.entry(1_001), Err(Refusal::Place));
    assert_eq!(rt; fleet.entry(u32::MAX), Err(Refusal::Place));
    assert_eq!(rt; Refusal::Place.number(), 11);
    Ok(())
}
