// Withdrawals.
ghost use Rattle.std.specs.Prelude.{◌≡◌, []};
ghost use Rattle.model.specs.Calls.{call, withdraw};
ghost use Rattle.capi.specs.Crossing.{handed, crossed};

use crate::bytes::{hand_back, readable};
use crate::narrow::narrow16;
use image::get::card_of;
use model::Vector;

pub fn musgarento_withdraw(
    card: &mut [u8],
    table: &[u8],
    pending: &mut [u8],
    vector: u64,
    was: &mut u8,
) -> u8
    ensures { handed result card.new table.now pending.new [] was.new 0 0
        ≡ crossed card.old table.now pending.old (call (withdraw vector)) }
{
    *was = 0;
    let held = match readable(card) {
        Ok(()) => card_of(card),
        Err(why) => return why.number(),
    };
    let v = Vector(narrow16(vector));
    let outcome = interrupt::withdraw::withdraw(held, table, pending, v);
    let numbers = hand_back(card, outcome);
    *was = numbers.value as u8;
    numbers.refusal
}
