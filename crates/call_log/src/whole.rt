// A record that stands whole in the bytes handed in.
ghost use Rattle.std.specs.Prelude.{◌≡◌};
ghost use Rattle.call_log.specs.Scanning.{whole_in};

use crate::format::size_of;
use crate::kind::Kind;
use crate::scan::fits_later;

// How many bytes the record has that stands whole at the start of a log, if one does.
pub fn whole_in(log: &[u8]) -> Option<usize>
    ensures { result ≡ whole_in log.now }
{
    let kind = *log.first()?;
    let size = size_of(kind)?;
    if log.len() < size {
        return None;
    }
    if kind != Kind::Line as u8 {
        return Some(size);
    }
    if fits_later(kind, log[1]) {
        return Some(size);
    }
    None
}
