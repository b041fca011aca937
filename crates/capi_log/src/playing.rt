// A log played.
ghost use Rattle.std.specs.Prelude.{◌≡◌};
ghost use Rattle.capi_log.specs.Crossing.{handed, ended_code, refusal_in, answer_in, played};

use crate::bytes::{is_card, is_player};
use crate::turn::{Stopped, take_turn};
use model::Answer;
use model::refusal::Refusal;

// What became of a record as numbers: 1 if its call was made, its refusal, and what became of an event; each 0 where there is none.
fn tell(made: Option<Answer>, ended: &mut u8, refusal: &mut u8, answer: &mut u8)
    ensures { (ended.new ≡ ended_code made) × (refusal.new ≡ refusal_in made) × (answer.new ≡ answer_in made) }
{
    *ended = 0;
    *refusal = 0;
    *answer = 0;
    let Some(given) = made else {
        return;
    };
    let numbers = capi::bytes::numbers_of(given);
    *ended = 1;
    *refusal = numbers.refusal;
    *answer = numbers.event;
}

pub fn musgarento_play(
    card: &mut [u8],
    table: &mut [u8],
    pending: &mut [u8],
    player: &mut [u8],
    log: &[u8],
    out: &mut [u8],
    taken: &mut usize,
    ended: &mut u8,
    refusal: &mut u8,
    answer: &mut u8,
    count: &mut usize,
) -> u8
    ensures { handed result card.new table.new pending.new player.new out.new
        taken.new ended.new refusal.new answer.new count.new
        ≡ played card.old table.old pending.old player.old log.now out.old }
{
    *taken = 0;
    *ended = 0;
    *refusal = 0;
    *answer = 0;
    *count = 0;
    if !is_card(card) {
        return Refusal::Lengths as u8;
    }
    let Some(player) = player.as_mut_array::<25>() else {
        return Refusal::Lengths as u8;
    };
    if !is_player(player) {
        return Refusal::Lengths as u8;
    }
    let played = take_turn(card, table, pending, player, log, out, count);
    *taken = played.taken;
    match played.ended {
        Ok(made) => {
            tell(made, ended, refusal, answer);
            0
        }
        Err(Stopped) => Refusal::Log as u8,
    }
}
