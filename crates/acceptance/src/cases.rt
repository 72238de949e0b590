// Units that several examples use.
use fleet::{Fleet, Refusal};
use rounding::{FULL, Nearest, Rounding, State};
use std::process::Abort;
use std::test::Fail;

// In service with certainty.
pub const SURE: [State; 1] = [State {
    outage: 0,
    weight: 1_000_000,
}];

// Capacity 3, out with weight 20,000.
pub const THREE: [State; 2] = [
    State {
        outage: 0,
        weight: 980_000,
    },
    State {
        outage: 3,
        weight: 20_000,
    },
];

// Capacity 5, with a partial outage of 2.
pub const FIVE: [State; 3] = [
    State {
        outage: 0,
        weight: 960_000,
    },
    State {
        outage: 2,
        weight: 33_000,
    },
    State {
        outage: 5,
        weight: 7_000,
    },
];

// In service with the weight that an outage of so many steps leaves.
pub(crate) fn out_by(outage: u32, outage_weight: u32) -> [State; 2] {
    [
        State {
            outage: 0,
            weight: 1_000_000u32.saturating_sub(outage_weight),
        },
        State {
            outage,
            weight: outage_weight,
        },
    ]
}

// The same for one step.
pub(crate) fn one_step(outage_weight: u32) -> [State; 2] {
    out_by(1, outage_weight)
}

// The number with which a call is refused, or 0 where it is not.
pub(crate) fn number<T: Drop>(answer: Result<T, Refusal>) -> u8 {
    match answer {
        Ok(_) => 0,
        Err(refusal) => refusal.number(),
    }
}

// The number with which a fleet refuses a unit, or 0 where it takes it.
pub(crate) fn refused(fleet: &mut Fleet, identity: u32, capacity: u32, states: &[State]) -> u8 {
    number(fleet.add(&Nearest, identity, capacity, states))
}

// The same of an open fleet.
pub(crate) fn refused_by_open(identity: u32, capacity: u32, states: &[State]) -> u8 {
    let mut fleet = Fleet::open();
    refused(&mut fleet, identity, capacity, states)
}

// Checks entries, each given by place and parts, that come with one tolerance.
pub(crate) fn check_entries(
    rt: &impl Abort,
    fleet: &Fleet,
    tolerance: u32,
    expected: &[(u32, u64)],
) -> Result<(), Fail> {
    for (place, parts) in expected {
        assert_eq!(rt; fleet.entry(*place)?, (*parts, tolerance));
    }
    Ok(())
}

// A fleet with two units of capacity 3.
pub(crate) fn two_units(rt: &impl Abort) -> Result<Fleet, Fail> {
    let mut fleet = Fleet::open();
    assert_eq!(rt; fleet.add(&Nearest, 1, 3, &THREE)?, 1);
    assert_eq!(rt; fleet.add(&Nearest, 2, 3, &THREE)?, 2);
    Ok(fleet)
}

// A fleet with those two and a unit of capacity 5.
pub(crate) fn three_units(rt: &impl Abort) -> Result<Fleet, Fail> {
    let mut fleet = two_units(rt)?;
    assert_eq!(rt; fleet.add(&Nearest, 3, 5, &FIVE)?, 3);
    Ok(fleet)
}

// Three units of capacity 1 that are out with weight 1, so that every rounding shows.
pub(crate) fn rare_units<R: Rounding>(rt: &impl Abort, rule: &R) -> Result<Fleet, Fail> {
    let rare = one_step(1);
    let mut fleet = Fleet::open();
    assert_eq!(rt; fleet.add(rule, 1, 1, &rare)?, 1);
    assert_eq!(rt; fleet.add(rule, 2, 1, &rare)?, 2);
    assert_eq!(rt; fleet.add(rule, 3, 1, &rare)?, 3);
    Ok(fleet)
}

// Checks a fleet that has two units of capacity 3 in service.
pub(crate) fn check_two_units(rt: &impl Abort, fleet: &Fleet, tolerance: u32) -> Result<(), Fail> {
    let expected = [
        (0, FULL),
        (1, 39_600_000_000),
        (3, 39_600_000_000),
        (4, 400_000_000),
        (6, 400_000_000),
        (7, 0),
    ];
    check_entries(rt, fleet, tolerance, &expected)?;
    assert_eq!(rt; fleet.capacity(), 6);
    assert_eq!(rt; fleet.greatest_outage(), 6);
    Ok(())
}
