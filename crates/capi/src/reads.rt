// The calls that read.
ghost use Rattle.std.specs.Prelude.{◌≡◌, []};
ghost use Rattle.model.specs.Calls.{call, config_read, bar_read};
ghost use Rattle.capi.specs.Crossing.{handed, crossed};

use crate::bytes::{numbers_of, readable};
use crate::narrow::{narrow8, narrow16, narrow32};
use image::get::card_of;

pub fn musgarento_config_read(
    card: &[u8],
    table: &[u8],
    pending: &[u8],
    offset: u64,
    width: u64,
    value: &mut u32,
) -> u8
    ensures { handed result card.now table.now pending.now [] value.new 0 0
        ≡ crossed card.now table.now pending.now (call (config_read offset width)) }
{
    *value = 0;
    let held = match readable(card) {
        Ok(()) => card_of(card),
        Err(why) => return why.number(),
    };
    let outcome = config_access::config_read::config_read(
        held,
        table,
        pending,
        narrow16(offset),
        narrow8(width),
    );
    let answer = outcome.answer;
    let numbers = numbers_of(answer);
    *value = numbers.value as u32;
    numbers.refusal
}

pub fn musgarento_bar_read(
    card: &[u8],
    table: &[u8],
    pending: &[u8],
    bar: u64,
    offset: u64,
    width: u64,
    value: &mut u64,
) -> u8
    ensures { handed result card.now table.now pending.now [] value.new 0 0
        ≡ crossed card.now table.now pending.now (call (bar_read bar offset width)) }
{
    *value = 0;
    let held = match readable(card) {
        Ok(()) => card_of(card),
        Err(why) => return why.number(),
    };
    let outcome = bar_access::bar_read::bar_read(
        held,
        table,
        pending,
        narrow8(bar),
        narrow32(offset),
        narrow8(width),
    );
    let answer = outcome.answer;
    let numbers = numbers_of(answer);
    *value = numbers.value;
    numbers.refusal
}
