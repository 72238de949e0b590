// Intake: the rows of a sheet are added to a fleet one by one, up to the first fault.
ghost use Rattle.std.specs.Prelude.{◌≡◌, ◌+◌, length, Some, None, MatchResult};
ghost use Rattle.std.specs.Option.{option_map};
ghost use Rattle.fleet.specs.Fleets.{ledger_of};
ghost use Rattle.indices.specs.Fault.{report, layer, number, written};
ghost use Rattle.indices.specs.Intake.{row_refusal, after_row, refused_row, told, Took, intake as intake_of, Answers, added_by};
ghost use Rattle.indices.specs.Rows.{row_says};

use crate::fault::{Fault, Reason};
use crate::row::Row;
use crate::sheet::Rows;
use fleet::Fleet;
use rounding::Rounding;
use std::fmt;

// A fault, and how many units were added before it.
#[derive(Clone, Copy, PartialEq, Eq, Debug)]
pub struct Stopped {
    pub fault: Fault,
    pub added: u32,
}

// Two lines: the names of the five numbers, and the numbers.
impl fmt::Display for Stopped {
    ghost output = { λ s. Some (written (layer s.fault.reason) (number s.fault.reason) s.fault.line s.fault.field s.added) };

    fn fmt<W: fmt::Write>(&self, f: &mut fmt::Formatter<W>) -> fmt::Result {
        let layer = self.fault.layer();
        let number = self.fault.number();
        let line = self.fault.line;
        let field = self.fault.field;
        let added = self.added;
        write!(
            f,
            "layer,number,line,field,added\n{layer},{number},{line},{field},{added}"
        )
    }
}

// Adds the unit that a row describes.
fn take_row<R: Rounding>(fleet: &mut Fleet, rule: &R, row: &Row) -> Result<(), Fault>
    ensures answer { MatchResult result (λ _. row_refusal (ledger_of fleet.old) (row_says row.now) ≡ None) (λ fault. option_map (refused_row row.now.line) (row_refusal (ledger_of fleet.old) (row_says row.now)) ≡ Some (report fault)) }
    ensures after { ledger_of fleet.new ≡ after_row (R.answer rule.now) (ledger_of fleet.old) (row_says row.now) }
{
    fleet
        .add(rule, row.id, row.cap, &row.states())
        .map_err(|refusal| Fault::of_line(Reason::Fleet(refusal), row.line))?;
    Ok(())
}

// Adds the units of a sheet, row by row. They are counted beside the answer, so that `?` hands a
// fault on as it is, and their number is known where one stops it.
fn take_sheet<R: Rounding>(
    fleet: &mut Fleet,
    rule: &R,
    sheet: &[u8],
    added: &mut u32,
) -> Result<(), Fault>
    requires { added.old ≡ 0 }
    ensures { Took (intake_of (R.answer rule.now) sheet.now (ledger_of fleet.old)) (ledger_of fleet.new) added.new (told result) }
{
    let mut rows = Rows::open(sheet)?;
    while let Some(row) = rows.next_row()? {
        take_row(fleet, rule, &row)?;
        *added += 1;
    }
    Ok(())
}

// Adds the units of a sheet, row by row. Answers how many were added, or the first fault with the
// number added before it; what was added stays.
pub fn intake<R: Rounding>(fleet: &mut Fleet, rule: &R, sheet: &[u8]) -> Result<u32, Stopped>
    ensures answer { Answers (intake_of (R.answer rule.now) sheet.now (ledger_of fleet.old)) result }
    ensures after { ledger_of fleet.new ≡ (intake_of (R.answer rule.now) sheet.now (ledger_of fleet.old)).ledger }
    ensures growth { length (ledger_of fleet.new).units ≡ length (ledger_of fleet.old).units + added_by result }
{
    let mut added = 0;
    match take_sheet(fleet, rule, sheet, &mut added) {
        Ok(()) => Ok(added),
        Err(fault) => Err(Stopped { fault, added }),
    }
}
