// A field of a line, and its value: 1 to 7 decimal digits.
ghost use Rattle.std.specs.Prelude.{◌≡◌, ◌≤◌, true, length, Some, None, MatchResult};
ghost use Rattle.indices.specs.Fault.{fault_at};
ghost use Rattle.indices.specs.Value.{digits, value, wrong, located};

use crate::byte::Kind;
use crate::fault::{Fault, Reason};

// A value has at most this many digits.
const MOST_DIGITS: usize = 7;

// The bytes of a field, and where it stands.
#[derive(Clone, Copy)]
pub struct Field<'a> {
    pub bytes: &'a [u8],
    // both count from 1
    pub line: u32,
    pub place: u32,
}

fn all_digits(bytes: &[u8]) -> bool
    ensures { result ≡ digits bytes.now }
{
    bytes.iter().all(|b| Kind::from(*b).is_digit())
}

fn number(bytes: &[u8]) -> u32
    requires digits { digits bytes.now ≡ true }
    requires few { length bytes.now ≤ 7 }
    ensures { result ≡ value bytes.now }
{
    let mut n = 0;
    for b in bytes {
        match Kind::from(*b) {
            Kind::Digit(d) => n = n * 10 + u32::from(d),
            _ => unreachable!(),
        }
    }
    n
}

impl Field<'_> {
    // A fault of this field.
    pub(crate) fn fault(&self, reason: Reason) -> Fault
        ensures { result ≡ fault_at reason self.now.line self.now.place }
    {
        Fault {
            reason,
            line: self.line,
            field: self.place,
        }
    }

    // The number that the field writes, or what is wrong with it.
    pub(crate) fn value(&self) -> Result<u32, Fault>
        ensures { MatchResult result (λ v. (wrong self.now.bytes.now ≡ None) × (v ≡ value self.now.bytes.now)) (λ fault. located self.now.line self.now.place (wrong self.now.bytes.now) ≡ Some fault) }
    {
        if !all_digits(self.bytes) {
            return Err(self.fault(Reason::NotDigit));
        }
        if self.bytes.is_empty() || self.bytes.len() > MOST_DIGITS {
            return Err(self.fault(Reason::DigitCount));
        }
        Ok(number(self.bytes))
    }
}
