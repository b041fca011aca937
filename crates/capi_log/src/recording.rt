// A log written.
ghost use Rattle.std.specs.Prelude.{◌≡◌, [], MatchOption};
ghost use Rattle.std.proofs.Math.Option.{some};
ghost use Rattle.model.specs.Answers.{refusal_of};
ghost use Rattle.call_log.specs.Logs.{header, size_of};
ghost use Rattle.call_log.specs.Kinds.{kind_byte};
ghost use Rattle.call_log.specs.Recorder.{appended, appended_to};
ghost use Rattle.capi_log.specs.Recording.{wrote, wrote_by, config_write_of, record_of, wrote_record};

use call_log::Record;
use call_log::kind::Kind;
use call_log::recorder::NoRoom;
use capi::narrow::{narrow8, narrow16, narrow32};
use model::Answer;
use model::refusal::Refusal;

// What was appended as numbers.
fn told(logged: Result<usize, NoRoom>, count: &mut usize) -> u8
    ensures { wrote result [] count.new ≡ wrote_by (appended_to logged []) }
{
    match logged {
        Ok(appended) => {
            *count = appended;
            0
        }
        Err(NoRoom) => {
            *count = 0;
            Refusal::Room as u8
        }
    }
}

// Mark and version.
pub fn musgarento_log_begin(out: &mut [u8], count: &mut usize) -> u8
    ensures { wrote result out.new count.new ≡ wrote_by (appended header out.old) }
{
    let logged = call_log::recorder::begin(out);
    told(logged, count)
}

// The record of a call that was answered with a refusal, or 0.
fn append(call: Record, refusal: u8, out: &mut [u8], count: &mut usize) -> u8
    ensures { wrote result out.new count.new ≡ wrote_record (some call) refusal out.old }
{
    let logged = call_log::recorder::record(call, Answer::Refused(refusal), out);
    told(logged, count)
}

// A configuration write, whose value has 32 bits.
fn append_config_write(
    offset: u64,
    width: u64,
    value: u64,
    refusal: u8,
    out: &mut [u8],
    count: &mut usize,
) -> u8
    ensures { wrote result out.new count.new ≡ wrote_record (config_write_of offset width value) refusal out.old }
{
    *count = 0;
    let Ok(value) = u32::try_from(value) else {
        return Refusal::Lengths as u8;
    };
    let call = Record::ConfigWrite {
        offset: narrow16(offset),
        width: narrow8(width),
        value,
    };
    append(call, refusal, out, count)
}

// The kind that a number stands for, if it does for one.
fn kind_of(number: u64) -> Option<Kind>
    ensures { MatchOption result (size_of number ≡ 0) (λ kind. kind_byte kind ≡ number) }
{
    let code = u8::try_from(number).ok()?;
    Kind::try_from(code).ok()
}

pub fn musgarento_log_record(
    kind: u64,
    bar: u64,
    offset: u64,
    width: u64,
    value: u64,
    refusal: u8,
    out: &mut [u8],
    count: &mut usize,
) -> u8
    ensures { wrote result out.new count.new ≡ wrote_record (record_of kind bar offset width value) refusal out.old }
{
    *count = 0;
    let Some(kind) = kind_of(kind) else {
        return Refusal::Lengths as u8;
    };
    match kind {
        Kind::Event => append(Record::Event(narrow16(value)), refusal, out, count),
        Kind::Line => append(Record::Line(value != 0), refusal, out, count),
        Kind::ConfigWrite => append_config_write(offset, width, value, refusal, out, count),
        Kind::BarWrite => {
            let call = Record::BarWrite {
                bar: narrow8(bar),
                offset: narrow32(offset),
                width: narrow8(width),
                value,
            };
            append(call, refusal, out, count)
        }
        Kind::Reset => append(Record::Reset, refusal, out, count),
    }
}
