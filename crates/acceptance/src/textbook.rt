// Figures that Billinton and Allan print in "Reliability Evaluation of Power Systems", second edition.
use crate::cases::out_by;
use fleet::Fleet;
use indices::{Line, Peaks, days};
use rounding::Nearest;
use std::array;
use std::process::Abort;
use std::test::Fail;

// A unit of two states, a step being a megawatt.
fn add_unit(fleet: &mut Fleet, identity: u32, megawatts: u32, rate: u32) -> Result<u32, Fail> {
    Ok(fleet.add(&Nearest, identity, megawatts, &out_by(megawatts, rate))?)
}

fn five_units(rt: &impl Abort) -> Result<Fleet, Fail> {
    let mut fleet = Fleet::open();
    for identity in 1..=5 {
        assert_eq!(rt; add_unit(&mut fleet, identity, 40, 10_000)?, identity);
    }
    Ok(fleet)
}

// Checks an entry: all its digits, which can be found by hand, and its millionths, which are printed.
fn check_printed(
    rt: &impl Abort,
    fleet: &Fleet,
    place: u32,
    parts: u64,
    millionths: u64,
) -> Result<(), Fail> {
    let (entry, tolerance) = fleet.entry(place)?;
    assert_eq!(rt; (entry, tolerance), (parts, 5));
    assert_eq!(rt; entry / 1_000_000, millionths);
    Ok(())
}

// Five units of 40 MW at a rate of 0.01: 1, 0.049009, 0.000980 and 0.000009 for 0, 40, 80 and 120 MW out.
#[test]
fn five_units_of_forty(rt: HostRuntime) -> Result<(), Fail> {
    let fleet = five_units(&rt)?;
    check_printed(&rt, &fleet, 0, 1_000_000_000_000, 1_000_000)?;
    check_printed(&rt, &fleet, 40, 49_009_950_100, 49_009)?;
    check_printed(&rt, &fleet, 80, 980_149_600, 980)?;
    check_printed(&rt, &fleet, 120, 9_850_600, 9)?;
    // left out in print
    check_printed(&rt, &fleet, 121, 49_600, 0)
}

// The same units with a peak of 160 MW that falls to 40 percent of it in a straight line. Of 365
// days 152 have a load above 120 MW and so are lost with 80 MW out, 152 one above 80 MW, lost with 120 out, and 61 are
// lost with 160 out: 152 × 980,149,600 + 152 × 9,850,600 + 61 × 49,600 parts. The book takes time as
// continuous and leaves small probabilities out, and prints 0.150410 days.
#[test]
fn a_straight_load_curve(rt: HostRuntime) -> Result<(), Fail> {
    let fleet = five_units(&rt)?;
    let year = Line::new(365, 160, 64)?;
    assert_eq!(rt; days(&fleet, &year)?, (150_483_056_000, 1_825));
    Ok(())
}

// Two units of 25 MW and one of 50 MW, each at a rate of 0.02.
fn hundred_megawatts(rt: &impl Abort) -> Result<Fleet, Fail> {
    let mut fleet = Fleet::open();
    assert_eq!(rt; add_unit(&mut fleet, 1, 25, 20_000)?, 1);
    assert_eq!(rt; add_unit(&mut fleet, 2, 25, 20_000)?, 2);
    assert_eq!(rt; add_unit(&mut fleet, 3, 50, 20_000)?, 3);
    Ok(fleet)
}

// The peak of a day: 57, 52, 46, 41 and 34 MW on 12, 83, 107, 116 and 47 days.
fn daily_peak(day: usize) -> u32 {
    match day {
        0..=11 => 57,
        12..=94 => 52,
        95..=201 => 46,
        202..=317 => 41,
        _ => 34,
    }
}

// 2.15108 days. The book counts a load that equals the available capacity as lost, and Fambyru does
// not. Available are 100, 75, 50, 25 or 0 MW, and no peak is one of these, so both must say the same.
#[test]
fn a_year_of_a_hundred_megawatts(rt: HostRuntime) -> Result<(), Fail> {
    let loads: [u32; 365] = array::from_fn(daily_peak);
    let fleet = hundred_megawatts(&rt)?;
    assert_eq!(rt;
        days(&fleet, &Peaks::new(&loads)?)?,
        (2_151_080_000_000, 1_095)
    );
    Ok(())
}

// A peak of 50 MW, which equals the capacity that is left with 50 MW out, and one of 75 MW. By the book's
// count these are 0.020392 and 0.058808 days; they are met here until 75 and 50 MW are out.
#[test]
fn peaks_that_equal_the_available_capacity(rt: HostRuntime) -> Result<(), Fail> {
    let fleet = hundred_megawatts(&rt)?;
    assert_eq!(rt; fleet.entry(50)?, (20_392_000_000, 3));
    assert_eq!(rt; fleet.entry(25)?, (58_808_000_000, 3));
    assert_eq!(rt; days(&fleet, &Peaks::new(&[50])?)?, (792_000_000, 3));
    assert_eq!(rt; days(&fleet, &Peaks::new(&[75])?)?, (20_392_000_000, 3));
    Ok(())
}
