// A row of a sheet, and the states of the unit that it describes.
ghost use Rattle.std.specs.Prelude.{◌≡◌, ◌+◌, ◌≤◌, length, Some, None, MatchResult, position};
ghost use Rattle.indices.specs.Names.{same};
ghost use Rattle.indices.specs.Row.{under, row_of, rates_fit, states};
ghost use Rattle.indices.specs.Sheet.{rate_fault};

use crate::fault::{Fault, Reason};
use crate::names::Column;
use arrayvec::ArrayVec;
use rounding::{MILLION, State};

// A row gives at most this many states.
const STATES: usize = 3;

#[derive(Clone, Copy)]
pub struct Row {
    pub line: u32,
    pub id: u32,
    // steps of capacity
    pub cap: u32,
    // probability of a full outage, in millionths
    pub rate: u32,
    // steps of capacity that a partial outage takes
    pub part: u32,
    // probability of a partial outage, in millionths
    pub prate: u32,
    // some weight is left to no outage
    ghost weight: { rate + prate ≤ 999999 },
}

// The place of a column.
fn place_of(column: Column, columns: &[Column]) -> Option<usize>
    ensures { result ≡ position (λ d. same d column) columns.now }
{
    columns.iter().position(|d| *d == column)
}

// The value that stands in the place of a column: line 1 and a row are two lists of the sheet.
fn value_under(column: Column, columns: &[Column], values: &[u32]) -> u32
    requires { length columns.now ≡ length values.now }
    ensures { result ≡ under column columns.now values.now }
{
    place_of(column, columns).map_or(0, |place| values[place])
}

// Whether rates can be those of a unit: they leave some weight to no outage, and a partial outage
// has its size and its rate.
fn rates_fit(rate: u32, part: u32, prate: u32) -> bool
    ensures { result ≡ rates_fit rate part prate }
{
    rate.saturating_add(prate) < MILLION && (part == 0) == (prate == 0)
}

impl Row {
    ghost use Rattle.indices.specs.Rows.{row_says};

    // The row that a line's values give, in the order of the columns.
    pub(crate) fn new(line: u32, columns: &[Column], values: &[u32]) -> Result<Row, Fault>
        requires { length columns.now ≡ length values.now }
        ensures { let said = row_of columns.now line values.now in MatchResult result (λ row. (row_says row ≡ said) × (rate_fault said ≡ None)) (λ fault. rate_fault said ≡ Some fault) }
    {
        let rate = value_under(Column::Rate, columns, values);
        let part = value_under(Column::Part, columns, values);
        let prate = value_under(Column::Prate, columns, values);
        if !rates_fit(rate, part, prate) {
            return Err(Fault::of_line(Reason::Rates, line));
        }
        Ok(Row {
            line,
            id: value_under(Column::Id, columns, values),
            cap: value_under(Column::Cap, columns, values),
            rate,
            part,
            prate,
        })
    }

    // The states of the unit: no outage, and each outage that it can have.
    pub(crate) fn states(&self) -> ArrayVec<State, STATES>
        ensures { result.items ≡ states (row_says self.now) }
    {
        let mut states = ArrayVec::new();
        states.push(State {
            outage: 0,
            weight: MILLION - self.rate - self.prate,
        });
        if self.part > 0 {
            states.push(State {
                outage: self.part,
                weight: self.prate,
            });
        }
        if self.rate > 0 {
            states.push(State {
                outage: self.cap,
                weight: self.rate,
            });
        }
        states
    }
}
