// Records appended to a log.
ghost use Rattle.std.specs.Prelude.{◌≡◌};
ghost use Rattle.call_log.specs.declared.Record.TheVariants.{Event, Line, ConfigWrite, BarWrite};
ghost use Rattle.call_log.specs.Logs.{header, bytes_in};
ghost use Rattle.call_log.specs.Recorder.{logged, appended, appended_to};

use crate::Record;
use crate::answer::lacks_room;
use crate::kind::Kind;
use crate::scan::HEADER;
use model::Answer;
use std::error::Error;
use std::fmt;

// The output has too little room: refusal 6 of the recorder.
#[derive(Clone, Copy, Debug, PartialEq, Eq)]
pub struct NoRoom;

impl fmt::Display for NoRoom {
    fn fmt<W: fmt::Write>(&self, f: &mut fmt::Formatter<W>) -> fmt::Result {
        f.write_str("too little room in the output")
    }
}

impl Error for NoRoom {}

// Appends bytes, all of them or none, and gives how many they are.
fn append(bytes: &[u8], out: &mut [u8]) -> Result<usize, NoRoom>
    ensures { appended_to result out.new ≡ appended bytes.now out.old }
{
    if out.len() < bytes.len() {
        return Err(NoRoom);
    }
    Ok(words::put::put_slice(out, bytes))
}

// Mark and version.
pub fn begin(out: &mut [u8]) -> Result<usize, NoRoom>
    ensures { appended_to result out.new ≡ appended header out.old }
{
    let bytes = HEADER;
    append(&bytes, out)
}

fn config_write_bytes(offset: u16, width: u8, value: u32) -> [u8; 8]
    ensures { result ≡ bytes_in (ConfigWrite offset width value) }
{
    let [at, at_high] = offset.to_le_bytes();
    let [a, b, c, d] = value.to_le_bytes();
    [Kind::ConfigWrite as u8, at, at_high, width, a, b, c, d]
}

fn bar_write_bytes(bar: u8, offset: u32, width: u8, value: u64) -> [u8; 15]
    ensures { result ≡ bytes_in (BarWrite bar offset width value) }
{
    let [i, j, k, l] = offset.to_le_bytes();
    let [a, b, c, d, e, f, g, h] = value.to_le_bytes();
    [
        Kind::BarWrite as u8,
        bar,
        i,
        j,
        k,
        l,
        width,
        a,
        b,
        c,
        d,
        e,
        f,
        g,
        h,
    ]
}

fn event_bytes(number: u16) -> [u8; 3]
    ensures { result ≡ bytes_in (Event number) }
{
    let [low, high] = number.to_le_bytes();
    [Kind::Event as u8, low, high]
}

fn line_bytes(level: bool) -> [u8; 2]
    ensures { result ≡ bytes_in (Line level) }
{
    [Kind::Line as u8, level as u8]
}

// Appends a record.
fn put_record(call: Record, out: &mut [u8]) -> Result<usize, NoRoom>
    ensures { appended_to result out.new ≡ appended (bytes_in call) out.old }
{
    match call {
        Record::Event(number) => append(&event_bytes(number), out),
        Record::Line(level) => append(&line_bytes(level), out),
        Record::ConfigWrite {
            offset,
            width,
            value,
        } => append(&config_write_bytes(offset, width, value), out),
        Record::BarWrite {
            bar,
            offset,
            width,
            value,
        } => append(&bar_write_bytes(bar, offset, width, value), out),
        Record::Reset => append(&[Kind::Reset as u8], out),
    }
}

// Appends the record of a call that got this answer; a call refused with 6 has none.
pub fn record(call: Record, answer: Answer, out: &mut [u8]) -> Result<usize, NoRoom>
    ensures { appended_to result out.new ≡ appended (logged call answer) out.old }
{
    if lacks_room(answer) {
        return Ok(0);
    }
    put_record(call, out)
}
