// Events and the line.
ghost use Rattle.std.specs.Prelude.{◌≡◌, not, eqb};
ghost use Rattle.model.specs.Calls.{call, event, line};
ghost use Rattle.capi.specs.Crossing.{handed, crossed};

use crate::bytes::{hand_back, readable};
use crate::narrow::narrow16;
use image::get::card_of;

pub fn musgarento_event(
    card: &mut [u8],
    table: &[u8],
    pending: &mut [u8],
    number: u64,
    out: &mut [u8],
    answer: &mut u8,
    count: &mut usize,
) -> u8
    ensures { handed result card.new table.now pending.new out.new 0 answer.new count.new
        ≡ crossed card.old table.now pending.old (call (event number out.old)) }
{
    *answer = 0;
    *count = 0;
    let held = match readable(card) {
        Ok(()) => card_of(card),
        Err(why) => return why.number(),
    };
    let outcome = interrupt::event::event(held, table, pending, narrow16(number), out);
    *count = outcome.count;
    let numbers = hand_back(card, outcome);
    *answer = numbers.event;
    numbers.refusal
}

// Level 0 is low, any other high.
pub fn musgarento_line(
    card: &mut [u8],
    table: &[u8],
    pending: &[u8],
    level: u64,
    out: &mut [u8],
    count: &mut usize,
) -> u8
    ensures { handed result card.new table.now pending.now out.new 0 0 count.new
        ≡ crossed card.old table.now pending.now (call (line (not (eqb level 0)) out.old)) }
{
    *count = 0;
    let held = match readable(card) {
        Ok(()) => card_of(card),
        Err(why) => return why.number(),
    };
    let outcome = interrupt::line::line(held, table, pending, level != 0, out);
    *count = outcome.count;
    let numbers = hand_back(card, outcome);
    numbers.refusal
}
