// The kinds of records.
ghost use Rattle.std.specs.Prelude.{◌≡◌};
ghost use Rattle.call_log.specs.Logs.{size_of};
ghost use Rattle.call_log.specs.Kinds.{kind_byte, Decodes};

use std::error::Error;
use std::fmt;

// The kind of a record: its first byte.
#[derive(Clone, Copy, Debug, PartialEq, Eq)]
pub enum Kind {
    Event = 1,
    Line = 2,
    ConfigWrite = 3,
    BarWrite = 4,
    Reset = 5,
}

// A byte that is no kind.
#[derive(Clone, Copy, Debug, PartialEq, Eq)]
pub struct UnknownKind(pub u8);

impl TryFrom<u8> for Kind {
    type Error = UnknownKind;

    ghost try_from_gives = { Decodes };

    fn try_from(code: u8) -> Result<Self, UnknownKind> {
        match code {
            1 => Ok(Kind::Event),
            2 => Ok(Kind::Line),
            3 => Ok(Kind::ConfigWrite),
            4 => Ok(Kind::BarWrite),
            5 => Ok(Kind::Reset),
            _ => Err(UnknownKind(code)),
        }
    }
}

impl Kind {
    // How many bytes a record has, its kind byte among them.
    pub fn size(self) -> usize
        ensures { result ≡ size_of (kind_byte self) }
    {
        match self {
            Kind::Event => 3,
            Kind::Line => 2,
            Kind::ConfigWrite => 8,
            Kind::BarWrite => 15,
            Kind::Reset => 1,
        }
    }
}

impl fmt::Display for UnknownKind {
    fn fmt<W: fmt::Write>(&self, f: &mut fmt::Formatter<W>) -> fmt::Result {
        write!(f, "no kind of record begins with the byte {}", self.0)
    }
}

impl Error for UnknownKind {}
