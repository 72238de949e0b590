// A sheet, row by row.
ghost use Rattle.std.specs.Prelude.{◌≡◌, length, Some, None, MatchOption, MatchResult};
ghost use Rattle.indices.specs.Sheet.{no_rows, sheet};

use crate::fault::{Fault, Reason};
use crate::line::read_values;
use crate::names::{COLUMNS, Column, read_names};
use crate::row::Row;
use crate::text::Reader;

// A sheet has at most this many bytes.
const MOST_BYTES: usize = 65_535;

// The rows that are left of a sheet whose line 1 is read.
#[derive(Drop)]
pub struct Rows<'a> {
    reader: Reader<'a>,
    // the names of line 1 in their order
    columns: [Column; COLUMNS],
    // line 1 has a name for each
    ghost five: { length columns ≡ 5 },
}

impl<'a> Rows<'a> {
    ghost use Rattle.indices.specs.Reader.{AtStart};
    ghost use Rattle.indices.specs.Rows.{remaining, row_says, RowRead};

    // Reads line 1 of a sheet.
    pub(crate) fn open(bytes: &'a [u8]) -> Result<Rows<'a>, Fault>
        ensures { MatchResult result (λ rows. (sheet bytes.now ≡ remaining rows) × AtStart rows.reader) (λ fault. sheet bytes.now ≡ no_rows (Some fault)) }
    {
        if bytes.len() > MOST_BYTES {
            return Err(Fault::of_sheet(Reason::TooLong));
        }
        let mut reader = Reader::new(bytes);
        let columns = read_names(&mut reader)?;
        Ok(Rows { reader, columns })
    }

    // The next row, or none where the sheet ends without a fault.
    pub(crate) fn next_row(&mut self) -> Result<Option<Row>, Fault>
        requires { AtStart self.old.reader }
        ensures { MatchResult result (λ o. MatchOption o (remaining self.old ≡ no_rows None) (λ row. RowRead self.old (row_says row) self.new)) (λ fault. remaining self.old ≡ no_rows (Some fault)) }
    {
        let line = self.reader.line;
        let Some(values) = read_values(&mut self.reader)? else {
            return Ok(None);
        };
        if values.len() != COLUMNS {
            return Err(Fault::of_line(Reason::FieldCount, line));
        }
        Ok(Some(Row::new(line, &self.columns, &values)?))
    }
}
