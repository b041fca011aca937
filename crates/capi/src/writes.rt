// The calls that write registers.
ghost use Rattle.std.specs.Prelude.{◌≡◌};
ghost use Rattle.model.specs.Calls.{call, config_write, bar_write};
ghost use Rattle.capi.specs.Crossing.{handed, crossed};

use crate::bytes::{hand_back, readable};
use crate::narrow::{narrow8, narrow16, narrow32};
use image::get::card_of;

pub fn musgarento_config_write(
    card: &mut [u8],
    table: &[u8],
    pending: &mut [u8],
    offset: u64,
    width: u64,
    value: u32,
    out: &mut [u8],
    count: &mut usize,
) -> u8
    ensures { handed result card.new table.now pending.new out.new 0 0 count.new
        ≡ crossed card.old table.now pending.old (call (config_write offset width value out.old)) }
{
    *count = 0;
    let held = match readable(card) {
        Ok(()) => card_of(card),
        Err(why) => return why.number(),
    };
    let outcome = config_access::config_write::config_write(
        held,
        table,
        pending,
        narrow16(offset),
        narrow8(width),
        value,
        out,
    );
    *count = outcome.count;
    let numbers = hand_back(card, outcome);
    numbers.refusal
}

pub fn musgarento_bar_write(
    card: &mut [u8],
    table: &mut [u8],
    pending: &mut [u8],
    bar: u64,
    offset: u64,
    width: u64,
    value: u64,
    out: &mut [u8],
    count: &mut usize,
) -> u8
    ensures { handed result card.new table.new pending.new out.new 0 0 count.new
        ≡ crossed card.old table.old pending.old (call (bar_write bar offset width value out.old)) }
{
    *count = 0;
    let held = match readable(card) {
        Ok(()) => card_of(card),
        Err(why) => return why.number(),
    };
    let outcome = bar_access::bar_write::bar_write(
        held,
        table,
        pending,
        narrow8(bar),
        narrow32(offset),
        narrow8(width),
        value,
        out,
    );
    *count = outcome.count;
    let numbers = hand_back(card, outcome);
    numbers.refusal
}
