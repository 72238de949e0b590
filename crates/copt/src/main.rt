// copt: reads a unit sheet from standard input and prints its capacity outage table.
#![tactic(auto)]

use fleet::Fleet;
use indices::intake;
use rounding::Nearest;
use std::io;
use std::io::Read;
use std::process::ExitCode;

// One byte more than a sheet may have, so that a longer input shows.
const MOST_READ: u64 = 65_536;

fn read_sheet(rt: &HostRuntime) -> io::Result<Vec<u8>> {
    let mut sheet = Vec::new(rt.alloc());
    rt.stdin().take(MOST_READ).read_to_end(&mut sheet)?;
    Ok(sheet)
}

// The entries from place 0 to the greatest possible outage, each with the tolerance.
fn print_table(rt: &HostRuntime, fleet: &Fleet) -> io::Result<()> {
    println!(rt; "k,entry,tolerance")?;
    for k in 0..=fleet.greatest_outage() {
        let Ok((parts, tolerance)) = fleet.entry(k) else {
            unreachable!()
        };
        println!(rt; "{k},{parts},{tolerance}")?;
    }
    Ok(())
}

// The table of a sheet, or its fault.
fn answer(rt: &HostRuntime, sheet: &[u8]) -> io::Result<()> {
    let mut fleet = Fleet::open();
    match intake(&mut fleet, &Nearest, sheet) {
        Ok(_) => print_table(rt, &fleet),
        Err(stopped) => println!(rt; "{stopped}"),
    }
}

// Says on standard error what could not be done.
fn report<T>(rt: &HostRuntime, what: &str, outcome: io::Result<T>) -> io::Result<T> {
    if let Err(e) = &outcome {
        let _ = eprintln!(rt; "copt: {what}: {e}");
    }
    outcome
}

fn run(rt: &HostRuntime) -> io::Result<()> {
    let sheet = report(rt, "cannot read standard input", read_sheet(rt))?;
    report(rt, "cannot write standard output", answer(rt, &sheet))
}

fn main(rt: HostRuntime) -> ExitCode {
    match run(&rt) {
        Ok(()) => ExitCode::SUCCESS,
        // An error that `main` returned would be printed a second time.
        Err(_) => ExitCode::FAILURE,
    }
}
