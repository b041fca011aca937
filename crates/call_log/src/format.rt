// The bytes of a record.
ghost use Rattle.std.specs.Prelude.{◌≡◌, ◌≤◌, ◌<◌, length};
ghost use Rattle.words.specs.Bytes.{byte};
ghost use Rattle.call_log.specs.Logs.{size_of, record_in};
ghost use Rattle.call_log.specs.Kinds.{size_in};

use crate::Record;
use crate::kind::{Kind, UnknownKind};

// How many bytes the record has that begins with this byte; none if the byte is no kind.
pub fn size_of(kind: u8) -> Option<usize>
    ensures { result ≡ size_in kind }
{
    let kind = Kind::try_from(kind).ok()?;
    Some(kind.size())
}

// The record whose bytes stand at the start of a slice.
pub fn record_in(part: &[u8]) -> Record
    requires { (0 < length part.now) × (size_of (byte part.now 0) ≤ length part.now) }
    ensures { result ≡ record_in part.now }
{
    match Kind::try_from(part[0]) {
        Ok(Kind::Event) => Record::Event(words::get::word16(part, 1)),
        Ok(Kind::Line) => Record::Line(part[1] == 1),
        Ok(Kind::ConfigWrite) => Record::ConfigWrite {
            offset: words::get::word16(part, 1),
            width: part[3],
            value: words::get::word32(part, 4),
        },
        Ok(Kind::BarWrite) => Record::BarWrite {
            bar: part[1],
            offset: words::get::word32(part, 2),
            width: part[6],
            value: words::get::word64(part, 7),
        },
        Ok(Kind::Reset) => Record::Reset,
        Err(UnknownKind(_)) => Record::Reset,
    }
}
