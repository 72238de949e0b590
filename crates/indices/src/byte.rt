// What a byte of a sheet stands for.
ghost use Rattle.std.specs.Prelude.{◌≡◌};
ghost use Rattle.indices.specs.Byte.{kind};
ghost use Rattle.indices.specs.Text.{ends, feed};
ghost use Rattle.indices.specs.Value.{digit};

#[derive(Clone, Copy)]
pub enum Kind {
    Comma,
    LineFeed,
    // with its value, 0 to 9
    Digit(u8),
    Other,
}

impl Kind {
    pub(crate) fn ends_line(self) -> bool
        ensures { result ≡ feed self }
    {
        matches!(self, Kind::LineFeed)
    }

    pub(crate) fn ends_field(self) -> bool
        ensures { result ≡ ends self }
    {
        matches!(self, Kind::Comma | Kind::LineFeed)
    }

    pub(crate) fn is_digit(self) -> bool
        ensures { result ≡ digit self }
    {
        matches!(self, Kind::Digit(_))
    }
}

impl From<u8> for Kind {
    ghost from_gives = { λ b k. k ≡ kind b };

    fn from(b: u8) -> Kind {
        match b as char {
            ',' => Kind::Comma,
            '\n' => Kind::LineFeed,
            '0'..='9' => Kind::Digit(b - b'0'),
            _ => Kind::Other,
        }
    }
}
