// The names in line 1, and the order in which they stand there.
ghost use Rattle.std.specs.Prelude.{◌≡◌, Some, None, MatchResult};
ghost use Rattle.indices.specs.Fault.{fault_at};
ghost use Rattle.indices.specs.Names.{column, fresh};
ghost use Rattle.indices.specs.Reader.{unread, AtStart};
ghost use Rattle.indices.specs.Rows.{NamesRead};
ghost use Rattle.indices.specs.Sheet.{no_rows, text};

use crate::fault::{Fault, Reason};
use crate::field::Field;
use crate::text::{Reader, Token};
use arrayvec::ArrayVec;

// A sheet has five columns.
pub const COLUMNS: usize = 5;

// The default is what an `ArrayVec` has in its unused places.
#[derive(Clone, Copy, PartialEq, Eq, Default)]
pub enum Column {
    #[default]
    Id,
    Cap,
    Rate,
    Part,
    Prate,
}

impl Column {
    // The column of a name. There is nothing to say of any other name but its place, which its field
    // has.
    fn named(name: &[u8]) -> Option<Column>
        ensures { result ≡ column name.now }
    {
        match name {
            b"id" => Some(Column::Id),
            b"cap" => Some(Column::Cap),
            b"rate" => Some(Column::Rate),
            b"part" => Some(Column::Part),
            b"prate" => Some(Column::Prate),
            _ => None,
        }
    }
}

// The column that a field names, where it does not stand before.
fn fresh_column(field: &Field, before: &[Column]) -> Result<Column, Fault>
    ensures { MatchResult result (λ c. fresh before.now (column field.now.bytes.now) ≡ Some c) (λ fault. (fresh before.now (column field.now.bytes.now) ≡ None) × (fault ≡ fault_at Reason.Names field.now.line field.now.place)) }
{
    match Column::named(field.bytes) {
        Some(column) if !before.contains(&column) => Ok(column),
        _ => Err(field.fault(Reason::Names)),
    }
}

// Line 1: the columns in their order.
pub(crate) fn read_names(reader: &mut Reader) -> Result<[Column; COLUMNS], Fault>
    requires start { AtStart reader.old }
    requires line { reader.old.line ≡ 1 }
    ensures { MatchResult result (λ columns. NamesRead reader.old columns reader.new) (λ fault. text (unread reader.old) ≡ no_rows (Some fault)) }
{
    let mut columns = ArrayVec::<Column, COLUMNS>::new();
    loop {
        match reader.token()? {
            Token::Field(field) => columns.push(fresh_column(&field, &columns)?),
            Token::LineEnd => break,
            // line 1 is not the end of a sheet
            Token::SheetEnd => unreachable!(),
        }
    }
    columns
        .into_inner()
        .map_err(|_| Fault::of_line(Reason::Names, 1))
}
