// The values of a line below line 1.
ghost use Rattle.std.specs.Prelude.{◌≡◌, List, Some, None, MatchOption, MatchResult};
ghost use Rattle.indices.specs.declared.names.Column.{Column};
ghost use Rattle.indices.specs.Reader.{unread, AtStart, Last};
ghost use Rattle.indices.specs.Rows.{ValuesRead};
ghost use Rattle.indices.specs.Sheet.{no_rows, below};

use crate::fault::Fault;
use crate::names::COLUMNS;
use crate::text::{Reader, Token};
use arrayvec::ArrayVec;

// One more than a row has, so that too many show.
const MOST_VALUES: usize = COLUMNS + 1;

// The first values of a line.
pub type Values = ArrayVec<u32, MOST_VALUES>;

// The values of the next line, or none at the end of the sheet.
pub(crate) fn read_values(reader: &mut Reader) -> Result<Option<Values>, Fault>
    requires { AtStart reader.old }
    ensures { MatchResult result (λ o. MatchOption o (Last reader.old.line (unread reader.old) None) (λ values. ValuesRead reader.old values.items reader.new)) (λ fault. (columns : List Column) → below columns reader.old.line (unread reader.old) ≡ no_rows (Some fault)) }
{
    let mut values = Values::new();
    loop {
        match reader.token()? {
            Token::Field(field) => {
                // where there is no room for a value, its field is read all the same
                let _ = values.try_push(field.value()?);
            }
            Token::LineEnd => return Ok(Some(values)),
            Token::SheetEnd => return Ok(None),
        }
    }
}
