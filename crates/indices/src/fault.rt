// What is wrong with a sheet, and where.
ghost use Rattle.std.specs.Prelude.{◌≡◌};
ghost use Rattle.indices.specs.Fault.{number, layer, layer_number, fault_of_line, fault_of_sheet};

use fleet::Refusal;

#[derive(Clone, Copy, PartialEq, Eq, Debug)]
pub enum Reason {
    // more than 65,535 bytes
    TooLong,
    // a line without its line feed
    NoLineFeed,
    // line 1 does not hold each name once
    Names,
    // a value holds a byte that is no digit
    NotDigit,
    // a value is empty, or longer than seven digits
    DigitCount,
    // a line of more or fewer than five fields
    FieldCount,
    // the rates leave no weight to full service, or a partial outage lacks its size or its rate
    Rates,
    // the fleet refuses the unit
    Fleet(Refusal),
}

// Where a fault is found.
#[derive(Clone, Copy)]
enum Layer {
    Text = 1,
    Row = 2,
    Fleet = 3,
}

impl Reason {
    fn layer(self) -> Layer
        ensures { layer_number result ≡ layer self }
    {
        match self {
            Reason::TooLong | Reason::NoLineFeed | Reason::NotDigit | Reason::DigitCount =>
                Layer::Text,
            Reason::Names | Reason::FieldCount | Reason::Rates => Layer::Row,
            Reason::Fleet(_) => Layer::Fleet,
        }
    }
}

#[derive(Clone, Copy, PartialEq, Eq, Debug)]
pub struct Fault {
    pub reason: Reason,
    // both count from 1; 0 where the fault is of the whole sheet or line
    pub line: u32,
    pub field: u32,
}

impl Fault {
    // A fault of the whole sheet.
    pub(crate) fn of_sheet(reason: Reason) -> Fault
        ensures { result ≡ fault_of_sheet reason }
    {
        Fault::of_line(reason, 0)
    }

    // A fault of a whole line.
    pub(crate) fn of_line(reason: Reason, line: u32) -> Fault
        ensures { result ≡ fault_of_line reason line }
    {
        Fault {
            reason,
            line,
            field: 0,
        }
    }

    // One case carries a refusal with a number of its own, so the numbers stand here and not at the
    // cases.
    pub fn number(&self) -> u8
        ensures { result ≡ number self.now.reason }
    {
        match self.reason {
            Reason::TooLong => 15,
            Reason::NoLineFeed => 16,
            Reason::Names => 17,
            Reason::NotDigit => 18,
            Reason::DigitCount => 19,
            Reason::FieldCount => 20,
            Reason::Rates => 21,
            Reason::Fleet(refusal) => refusal.number(),
        }
    }

    pub fn layer(&self) -> u8
        ensures { result ≡ layer self.now.reason }
    {
        self.reason.layer() as u8
    }
}
