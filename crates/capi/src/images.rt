// Saving and restoring.
ghost use Rattle.std.specs.Prelude.{◌≡◌, []};
ghost use Rattle.model.specs.Calls.{call, save, restore};
ghost use Rattle.capi.specs.Crossing.{handed, crossed};

use crate::bytes::{hand_back, numbers_of, readable};
use image::format::Image;
use image::get::card_of;
use model::refusal::Refusal;

pub fn musgarento_save(
    card: &[u8],
    table: &[u8],
    pending: &[u8],
    out: &mut [u8],
    count: &mut usize,
) -> u8
    ensures { handed result card.now table.now pending.now out.new 0 0 count.new
        ≡ crossed card.now table.now pending.now (call (save out.old)) }
{
    *count = 0;
    let held = match readable(card) {
        Ok(()) => card_of(card),
        Err(why) => return why.number(),
    };
    let outcome = snapshot::save::save(held, table, pending, out);
    *count = outcome.count;
    let answer = outcome.answer;
    let numbers = numbers_of(answer);
    numbers.refusal
}

// Of the bytes of the card a restore asks only how many there are, and a refused one leaves them.
pub fn musgarento_restore(card: &mut [u8], table: &mut [u8], pending: &mut [u8], image: &[u8]) -> u8
    ensures { handed result card.new table.new pending.new [] 0 0 0
        ≡ crossed card.old table.old pending.old (restore image.now) }
{
    if card.len() != Image::CARD {
        return Refusal::Lengths.number();
    }
    let held = card_of(card);
    let outcome = snapshot::restore::restore(held, image, table, pending);
    let numbers = hand_back(card, outcome);
    numbers.refusal
}
