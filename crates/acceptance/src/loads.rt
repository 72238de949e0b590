// What a load model means day by day, and what its maker refuses.
use crate::cases::number;
use indices::{ABOVE_LIMIT, Growth, Line, LoadModel, Peaks};
use std::process::Abort;
use std::test::Fail;

// Checks the number of days, and loads that are each given by day and steps.
fn check_loads<L: LoadModel>(
    rt: &impl Abort,
    model: &L,
    days: u32,
    expected: &[(u32, u32)],
) -> Result<(), Fail> {
    assert_eq!(rt; model.days(), days);
    for (day, load) in expected {
        assert_eq!(rt; model.load(*day), *load);
    }
    Ok(())
}

#[test]
fn a_list_that_the_caller_holds(rt: HostRuntime) -> Result<(), Fail> {
    let loads = [6, 0, 1_000];
    let peaks = Peaks::new(&loads)?;
    check_loads(&rt, &peaks, 3, &[(0, 6), (1, 0), (2, 1_000)])?;
    assert_eq!(rt; peaks.load(3), 0, "past the last day");
    assert_eq!(rt; peaks.load(u32::MAX), 0);
    Ok(())
}

#[test]
fn lists_at_their_limits(rt: HostRuntime) -> Result<(), Fail> {
    assert_eq!(rt; number(Peaks::new(&[])), 12);
    assert_eq!(rt; number(Peaks::new(&[1_000, 1_001])), 12);
    assert_eq!(rt; number(Peaks::new(&[1_000, u32::MAX])), 12);
    assert_eq!(rt; number(Peaks::new(&[8; 8_785])), 12);
    let hours = [8; 8_784];
    check_loads(&rt, &Peaks::new(&hours)?, 8_784, &[(8_783, 8), (8_784, 0)])
}

#[test]
fn a_line_from_six_to_three(rt: HostRuntime) -> Result<(), Fail> {
    let line = Line::new(3, 6, 3)?;
    check_loads(&rt, &line, 3, &[(0, 6), (1, 5), (2, 3), (3, 0)])
}

#[test]
fn lines_round_the_fall_down(rt: HostRuntime) -> Result<(), Fail> {
    let steep = Line::new(4, 10, 0)?;
    check_loads(&rt, &steep, 4, &[(0, 10), (1, 7), (2, 4), (3, 0)])?;
    let long = Line::new(8_784, 1_000, 0)?;
    check_loads(
        &rt,
        &long,
        8_784,
        &[(8, 1_000), (9, 999), (8_782, 1), (8_783, 0)],
    )?;
    check_loads(&rt, &Line::new(1, 9, 2)?, 1, &[(0, 9), (1, 0)])
}

#[test]
fn lines_at_their_limits(rt: HostRuntime) {
    assert_eq!(rt; number(Line::new(0, 6, 3)), 12);
    assert_eq!(rt; number(Line::new(8_785, 6, 3)), 12);
    assert_eq!(rt; number(Line::new(3, 3, 4)), 12);
    assert_eq!(rt; number(Line::new(3, 3, 3)), 0);
    assert_eq!(rt; number(Line::new(3, 1_001, 3)), 12);
    assert_eq!(rt; number(Line::new(3, 1_000, 0)), 0);
}

#[test]
fn growth_rounds_up(rt: HostRuntime) -> Result<(), Fail> {
    let loads = [6, 10, 0, 1_000];
    let peaks = Peaks::new(&loads)?;
    check_loads(
        &rt,
        &Growth::new(&peaks, 110)?,
        4,
        &[(0, 7), (1, 11), (2, 0), (4, 0)],
    )?;
    check_loads(&rt, &Growth::new(&peaks, 100)?, 4, &[(0, 6), (3, 1_000)])?;
    check_loads(&rt, &Growth::new(&peaks, 1)?, 4, &[(0, 1), (3, 10)])?;
    check_loads(
        &rt,
        &Growth::new(&peaks, 101)?,
        4,
        &[(0, 7), (3, ABOVE_LIMIT)],
    )
}

#[test]
fn growth_over_growth(rt: HostRuntime) -> Result<(), Fail> {
    let line = Line::new(2, 1_000, 6)?;
    let once = Growth::new(&line, 110)?;
    let twice = Growth::new(&once, 110)?;
    check_loads(&rt, &twice, 2, &[(0, ABOVE_LIMIT), (1, 8), (2, 0)])?;
    let back = Growth::new(&twice, 50)?;
    // a marked load stays marked
    check_loads(&rt, &back, 2, &[(0, ABOVE_LIMIT), (1, 4)])
}

#[test]
fn percentages_at_their_limits(rt: HostRuntime) -> Result<(), Fail> {
    let line = Line::new(2, 334, 333)?;
    assert_eq!(rt; number(Growth::new(&line, 0)), 12);
    assert_eq!(rt; number(Growth::new(&line, 1)), 0);
    assert_eq!(rt; number(Growth::new(&line, 301)), 12);
    check_loads(
        &rt,
        &Growth::new(&line, 300)?,
        2,
        &[(0, ABOVE_LIMIT), (1, 999)],
    )
}
