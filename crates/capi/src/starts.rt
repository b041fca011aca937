// Starting and resetting.
ghost use Rattle.std.specs.Prelude.{◌≡◌, []};
ghost use Rattle.model.specs.Calls.{call, start, reset};
ghost use Rattle.capi.specs.Crossing.{handed, crossed};

use crate::bytes::{hand_back, hand_out, readable};
use crate::narrow::narrow16;
use image::format::Image;
use image::get::card_of;
use model::refusal::Refusal;

// A start reads no byte of the card.
pub fn musgarento_start(
    card: &mut [u8],
    config: &[u8],
    sizes: &[u32],
    events: u64,
    requester: u64,
    table: &mut [u8],
    pending: &mut [u8],
) -> u8
    ensures { handed result card.new table.new pending.new [] 0 0 0
        ≡ crossed card.old table.old pending.old (start config.now sizes.now events requester) }
{
    if card.len() != Image::CARD {
        return Refusal::Lengths.number();
    }
    let Some(bytes) = config.as_array::<256>() else {
        return Refusal::Lengths.number();
    };
    let Some(words) = sizes.as_array::<6>() else {
        return Refusal::Lengths.number();
    };
    let outcome = lifecycle::start::start(
        *bytes,
        *words,
        narrow16(events),
        narrow16(requester),
        table,
        pending,
    );
    let numbers = hand_out(card, outcome);
    numbers.refusal
}

pub fn musgarento_reset(
    card: &mut [u8],
    table: &mut [u8],
    pending: &mut [u8],
    out: &mut [u8],
    count: &mut usize,
) -> u8
    ensures { handed result card.new table.new pending.new out.new 0 0 count.new
        ≡ crossed card.old table.old pending.old (call (reset out.old)) }
{
    *count = 0;
    let held = match readable(card) {
        Ok(()) => card_of(card),
        Err(why) => return why.number(),
    };
    let outcome = lifecycle::reset::reset(held, table, pending, out);
    *count = outcome.count;
    let numbers = hand_back(card, outcome);
    numbers.refusal
}
