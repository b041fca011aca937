// The call that a record is, on a card as its 289 bytes. Nothing else of a player meets the card.
ghost use Rattle.std.specs.Prelude.{◌≡◌, [], length};
ghost use Rattle.model.specs.Answers.{refusal_of};
ghost use Rattle.model.specs.World.{world_of};
ghost use Rattle.capi.specs.Crossing.{card_over};
ghost use Rattle.player.specs.Plays.{gave, performed};

use bar_access::bar_write::bar_write;
use call_log::Record;
use capi::bytes::hand_back;
use card::outcome::Outcome;
use config_access::config_write::config_write;
use image::get::card_of;
use interrupt::event::event;
use interrupt::line::line;
use lifecycle::reset::reset;
use model::Answer;

// Hands back an outcome: its card over the bytes of the card before it, which stay beside a refusal, how many bytes of the output are new, and its answer.
fn finish(card: &mut [u8], outcome: Outcome, count: &mut usize) -> Answer
    requires { length card.old ≡ 289 }
    ensures { (result ≡ outcome.answer) × (count.new ≡ outcome.count)
        × (card.new ≡ card_over (refusal_of outcome.answer) card.old (world_of outcome.card [] [])) }
{
    *count = outcome.count;
    let answer = outcome.answer;
    hand_back(card, outcome);
    answer
}

// Card, table and pending array come apart, as C lends them and as each call of the card takes them.
pub fn perform(
    card: &mut [u8],
    table: &mut [u8],
    pending: &mut [u8],
    call: Record,
    out: &mut [u8],
    count: &mut usize,
) -> Answer
    requires { length card.old ≡ 289 }
    ensures { gave result card.new table.new pending.new out.new count.new
        ≡ performed card.old table.old pending.old call out.old }
{
    // the card is read in each arm: read before the match, it would be copied once more
    match call {
        Record::Event(number) => {
            let held = card_of(card);
            let outcome = event(held, table, pending, number, out);
            finish(card, outcome, count)
        }
        Record::Line(level) => {
            let held = card_of(card);
            let outcome = line(held, table, pending, level, out);
            finish(card, outcome, count)
        }
        Record::ConfigWrite {
            offset,
            width,
            value,
        } => {
            let held = card_of(card);
            let outcome = config_write(held, table, pending, offset, width, value, out);
            finish(card, outcome, count)
        }
        Record::BarWrite {
            bar,
            offset,
            width,
            value,
        } => {
            let held = card_of(card);
            let outcome = bar_write(held, table, pending, bar, offset, width, value, out);
            finish(card, outcome, count)
        }
        Record::Reset => {
            let held = card_of(card);
            let outcome = reset(held, table, pending, out);
            finish(card, outcome, count)
        }
    }
}
