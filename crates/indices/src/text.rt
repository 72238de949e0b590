// Cuts a sheet into its fields, one token at a time.
ghost use Rattle.std.specs.Prelude.{◌≡◌, ◌+◌, ◌^◌, ◌<◌, ◌≤◌, true, false, length, Ok};
ghost use Rattle.std.specs.List.{list_any, position};
ghost use Rattle.indices.specs.Byte.{kind};
ghost use Rattle.indices.specs.Text.{lines, complete, ends, feed};

use crate::byte::Kind;
use crate::fault::{Fault, Reason};
use crate::field::Field;

// Whether the line that the bytes begin with has its line feed.
fn has_line_feed(bytes: &[u8]) -> bool
    ensures { result ≡ list_any (λ b. feed (kind b)) bytes.now }
{
    bytes.iter().any(|b| Kind::from(*b).ends_line())
}

// The place of the first byte that ends a field.
fn field_end(bytes: &[u8]) -> Option<usize>
    ensures { result ≡ position (λ b. ends (kind b)) bytes.now }
{
    bytes.iter().position(|b| Kind::from(*b).ends_field())
}

// What is left of a sheet to read.
#[derive(Drop)]
pub struct Reader<'a> {
    rest: &'a [u8],
    // the line that is being read, from 1
    pub line: u32,
    // the field of that line that was read last, from 1; 0 before the first
    place: u32,
    // the line feed of that line is read; a flag beside the place, since what a token says of the
    // text counts the place on either side of it
    ended: bool,
    // the lines and the fields of a line can be counted
    ghost fits: { line + place + length rest.now < 2 ^ 32 },
    // a line ends with a field
    ghost begun: { ended ≡ true → 0 < place },
    // a line of which a field is read is known to have its line feed
    ghost whole: { 0 < place → ended ≡ false → complete (lines rest.now) ≡ true },
}

#[derive(Clone, Copy)]
pub enum Token<'a> {
    Field(Field<'a>),
    LineEnd,
    SheetEnd,
}

impl<'a> Reader<'a> {
    ghost use Rattle.indices.specs.Reader.{unread, AtStart, Reads};

    // At the start of a sheet, which is short enough to count its lines and fields.
    pub(crate) fn new(sheet: &'a [u8]) -> Self
        requires { length sheet.now ≤ 65535 }
        ensures text { unread result ≡ lines sheet.now }
        ensures start { AtStart result }
        ensures line { result.line ≡ 1 }
    {
        Reader {
            rest: sheet,
            line: 1,
            place: 0,
            ended: false,
        }
    }

    // The next field of a line that has its line feed.
    fn field(&mut self) -> Token<'a>
        requires unended { self.old.ended ≡ false }
        requires whole { complete (lines self.old.rest.now) ≡ true }
        ensures { Reads self.old (Ok result) self.new }
    {
        let rest = self.rest;
        let length = field_end(rest).unwrap();
        self.ended = Kind::from(rest[length]).ends_line();
        self.rest = &rest[length + 1..];
        self.place += 1;
        Token::Field(Field {
            bytes: &rest[..length],
            line: self.line,
            place: self.place,
        })
    }

    // The next token, or the fault of a line without its line feed.
    pub(crate) fn token(&mut self) -> Result<Token<'a>, Fault>
        ensures { Reads self.old result self.new }
    {
        if self.ended {
            self.ended = false;
            self.line += 1;
            self.place = 0;
            return Ok(Token::LineEnd);
        }
        if self.line > 1 && self.rest.is_empty() {
            return Ok(Token::SheetEnd);
        }
        // a line without its line feed is refused before any of its fields is read
        if self.place == 0 && !has_line_feed(self.rest) {
            return Err(Fault::of_line(Reason::NoLineFeed, self.line));
        }
        Ok(self.field())
    }
}
