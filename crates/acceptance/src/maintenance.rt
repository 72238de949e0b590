// Units that go out for maintenance, come back and are retired.
ghost use Rattle.std.specs.Prelude.{◌≤◌};

use crate::cases::{FIVE, SURE, check_entries, check_two_units, one_step, rare_units, three_units};
use fleet::Fleet;
use rounding::{Down, FULL, Nearest, Rounding, State, Up};
use std::process::Abort;
use std::test::Fail;

#[test]
fn a_withdrawal_undoes_an_add(rt: HostRuntime) -> Result<(), Fail> {
    let mut fleet = three_units(&rt)?;
    assert_eq!(rt; fleet.withdraw(&Nearest, 3)?, 5);
    check_two_units(&rt, &fleet, 5)?;
    assert_eq!(rt; fleet.unit(1), Some((3, 1)));
    assert_eq!(rt; fleet.unit(3), Some((5, 0)));
    assert_eq!(rt; fleet.rebuild(&Nearest), 2);
    check_two_units(&rt, &fleet, 2)
}

// Three units with rare outages, one of them withdrawn.
fn two_of_three<R: Rounding>(rt: &impl Abort, rule: &R) -> Result<Fleet, Fail> {
    let mut fleet = rare_units(rt, rule)?;
    assert_eq!(rt; fleet.withdraw(rule, 2)?, 5);
    assert_eq!(rt; fleet.capacity(), 2);
    Ok(fleet)
}

#[test]
fn a_withdrawal_down(rt: HostRuntime) -> Result<(), Fail> {
    let mut fleet = two_of_three(&rt, &Down)?;
    check_entries(&rt, &fleet, 5, &[(1, 1_999_998), (2, 0), (3, 0)])?;
    assert_eq!(rt; fleet.return_unit(&Down, 2)?, 6);
    assert_eq!(rt; fleet.entry(1)?, (2_999_996, 6));
    assert_eq!(rt; fleet.entry(2)?, (1, 6));
    Ok(())
}

#[test]
fn a_withdrawal_up(rt: HostRuntime) -> Result<(), Fail> {
    let mut fleet = two_of_three(&rt, &Up)?;
    check_entries(&rt, &fleet, 5, &[(1, 2_000_000), (2, 2), (3, 0)])?;
    assert_eq!(rt; fleet.return_unit(&Up, 2)?, 6);
    assert_eq!(rt; fleet.entry(2)?, (4, 6));
    assert_eq!(rt; fleet.entry(3)?, (1, 6));
    Ok(())
}

#[test]
fn a_withdrawal_to_the_nearest(rt: HostRuntime) -> Result<(), Fail> {
    let mut fleet = two_of_three(&rt, &Nearest)?;
    check_entries(&rt, &fleet, 5, &[(1, 1_999_999), (2, 1), (3, 0)])?;
    assert_eq!(rt; fleet.return_unit(&Nearest, 2)?, 6);
    assert_eq!(rt; fleet.unit(2), Some((1, 1)));
    assert_eq!(rt; fleet.entry(1)?, (2_999_997, 6));
    assert_eq!(rt; fleet.entry(2)?, (3, 6));
    Ok(())
}

#[test]
fn nothing_is_left_without_units(rt: HostRuntime) -> Result<(), Fail> {
    let mut fleet = Fleet::open();
    assert_eq!(rt; fleet.rebuild(&Up), 0, "an open fleet stays one");
    assert_eq!(rt; fleet.add(&Up, 9, 5, &FIVE)?, 1);
    assert_eq!(rt; fleet.withdraw(&Up, 9)?, 3);
    assert_eq!(rt; fleet.entry(0)?, (FULL, 3));
    assert_eq!(rt; fleet.entry(1)?, (0, 3));
    assert_eq!(rt; fleet.retire(9)?, 0);
    assert_eq!(rt; fleet.entry(0)?, (FULL, 3), "table and tolerance stay");
    assert_eq!(rt; fleet.rebuild(&Up), 0);
    assert_eq!(rt; fleet.entry(0)?, (FULL, 0));
    Ok(())
}

// Under down the digits of five units depend on their order. Entry 1 would be one part less in
// reverse order, with the last two exchanged, with the new unit in the place that was freed, and
// with the last unit moved there. The digits come from a separate program.
#[test]
fn later_units_move_up(rt: HostRuntime) -> Result<(), Fail> {
    let mut fleet = Fleet::open();
    assert_eq!(rt; fleet.add(&Up, 1, 1, &one_step(11))?, 1);
    assert_eq!(rt; fleet.add(&Up, 2, 1, &one_step(7))?, 2);
    assert_eq!(rt; fleet.add(&Up, 3, 1, &one_step(33_333))?, 3);
    assert_eq!(rt; fleet.add(&Up, 4, 1, &one_step(1_001))?, 4);
    assert_eq!(rt; fleet.add(&Up, 5, 1, &one_step(7))?, 5);
    assert_eq!(rt; fleet.withdraw(&Up, 2)?, 7);
    assert_eq!(rt; fleet.retire(2)?, 4);
    assert_eq!(rt; fleet.add(&Up, 6, 1, &one_step(99))?, 8);
    assert_eq!(rt; fleet.rebuild(&Down), 5);
    let expected = [(1, 34_413_618_697), (2, 37_377_333), (3, 3_967), (4, 0)];
    check_entries(&rt, &fleet, 5, &expected)
}

#[test]
fn a_retired_identity_is_free(rt: HostRuntime) -> Result<(), Fail> {
    let mut fleet = Fleet::open();
    assert_eq!(rt; fleet.add(&Nearest, 1, 1, &SURE)?, 1);
    assert_eq!(rt; fleet.add(&Nearest, 2, 2, &SURE)?, 2);
    assert_eq!(rt; fleet.add(&Nearest, 3, 3, &SURE)?, 3);
    assert_eq!(rt; fleet.withdraw(&Nearest, 2)?, 4);
    assert_eq!(rt; fleet.retire(2)?, 2);
    assert_eq!(rt; fleet.unit(1), Some((1, 1)));
    assert_eq!(rt; fleet.unit(2), None);
    assert_eq!(rt; fleet.unit(3), Some((3, 1)));
    assert_eq!(rt; fleet.add(&Nearest, 2, 7, &SURE)?, 5);
    assert_eq!(rt; fleet.unit(2), Some((7, 1)));
    assert_eq!(rt; fleet.unit(3), Some((3, 1)));
    assert_eq!(rt; fleet.capacity(), 11);
    Ok(())
}

// Capacity i + 3, with a partial outage of i.
fn partial(i: u32) -> [State; 3]
    requires { i ≤ 8 }
{
    let partly = 1_000 * i + 7;
    let wholly = 20_000 + 13 * i;
    [
        State {
            outage: 0,
            weight: 1_000_000 - partly - wholly,
        },
        State {
            outage: i,
            weight: partly,
        },
        State {
            outage: i + 3,
            weight: wholly,
        },
    ]
}

// Eight units, added under each rule in turn. A rule is a type, so each has a call of its own.
pub(crate) fn eight_units(rt: &impl Abort) -> Result<Fleet, Fail> {
    let mut fleet = Fleet::open();
    for i in 1..=8u32 {
        let added = match i % 3 {
            0 => fleet.add(&Down, i, i + 3, &partial(i))?,
            1 => fleet.add(&Up, i, i + 3, &partial(i))?,
            _ => fleet.add(&Nearest, i, i + 3, &partial(i))?,
        };
        assert_eq!(rt; added, i);
    }
    Ok(fleet)
}

// Units 3, 7 and 1 go out.
fn go_out(rt: &impl Abort, fleet: &mut Fleet) -> Result<(), Fail> {
    assert_eq!(rt; fleet.entry(20)?, (1_228_239_625, 8));
    assert_eq!(rt; fleet.withdraw(&Up, 3)?, 10);
    assert_eq!(rt; fleet.entry(20)?, (1_087_168_646, 10));
    assert_eq!(rt; fleet.withdraw(&Down, 7)?, 12);
    assert_eq!(rt; fleet.entry(30)?, (1_470_349, 12));
    assert_eq!(rt; fleet.withdraw(&Nearest, 1)?, 14);
    assert_eq!(rt; fleet.entry(30)?, (990_513, 14));
    Ok(())
}

// Units 7 and 1 come back, unit 3 is retired, and unit 8 goes out.
fn come_back(rt: &impl Abort, fleet: &mut Fleet) -> Result<(), Fail> {
    assert_eq!(rt; fleet.return_unit(&Nearest, 7)?, 15);
    assert_eq!(rt; fleet.entry(40)?, (25_350, 15));
    assert_eq!(rt; fleet.retire(3)?, 7);
    assert_eq!(rt; fleet.withdraw(&Up, 8)?, 17);
    assert_eq!(rt; fleet.entry(20)?, (118_983_502, 17));
    assert_eq!(rt; fleet.return_unit(&Down, 1)?, 18);
    assert_eq!(rt; fleet.entry(40)?, (146, 18));
    Ok(())
}

// Every call, the rule changing from call to call. The digits come from a separate program.
#[test]
fn a_year_of_maintenance(rt: HostRuntime) -> Result<(), Fail> {
    let mut fleet = eight_units(&rt)?;
    go_out(&rt, &mut fleet)?;
    come_back(&rt, &mut fleet)?;
    assert_eq!(rt; fleet.capacity(), 43);
    assert_eq!(rt; fleet.greatest_outage(), 43);
    assert_eq!(rt; fleet.rebuild(&Up), 6);
    check_entries(
        &rt,
        &fleet,
        6,
        &[(5, 113_004_004_951), (20, 162_231_522), (40, 147)],
    )
}
