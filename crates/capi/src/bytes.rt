// A card as bytes, and an answer as numbers.
ghost use Rattle.std.specs.Prelude.{◌≡◌, [], length};
ghost use Rattle.model.specs.World.{world_of};
ghost use Rattle.model.specs.Image.{card_bytes};
ghost use Rattle.model.specs.Answers.{refusal_of};
ghost use Rattle.model.specs.Refusals.{refusal_in};
ghost use Rattle.model.specs.Calls.{Call, call};
ghost use Rattle.capi.specs.Crossing.{unread, card_over};
ghost use Rattle.capi.specs.Numbers.{numbers, numbers_of};

use card::outcome::Outcome;
use image::format::Image;
use model::Answer;
use model::refusal::Refusal;

// Whether the bytes are those of a running card: refused where they have another length than a card's, or another flag than line and wire.
// The caller reads the card: a call copies its 289 bytes once, and not through a `Result` too.
pub fn readable(bytes: &[u8]) -> Result<(), Refusal>
    ensures { (c : Call) → refusal_in result ≡ unread bytes.now (call c) }
{
    if bytes.len() != Image::CARD {
        return Err(Refusal::Lengths);
    }
    if !image::get::card_flags_clean(bytes) {
        return Err(Refusal::NotSound);
    }
    Ok(())
}

// The same as a number, 0 for none: a public function with a contract of its own, which the interface of logs asks.
pub fn unread(bytes: &[u8]) -> u8
    ensures { (c : Call) → result ≡ unread bytes.now (call c) }
{
    match readable(bytes) {
        Ok(()) => 0,
        Err(why) => why.number(),
    }
}

// An answer as numbers: the refusal, the value of a read or a withdrawal, and what became of an event; each 0 where there is none.
#[derive(Clone, Copy)]
pub struct Numbers {
    pub refusal: u8,
    pub value: u64,
    pub event: u8,
}

// These are numbers since C is told them. Of an accepted call that has no value.
fn became(event: u8) -> Numbers
    ensures { result ≡ numbers 0 0 event }
{
    Numbers {
        refusal: 0,
        value: 0,
        event,
    }
}

pub fn numbers_of(answer: Answer) -> Numbers
    ensures { result ≡ numbers_of answer }
{
    match answer {
        Answer::Refused(refusal) => Numbers {
            refusal,
            value: 0,
            event: 0,
        },
        Answer::Value(value) => Numbers {
            refusal: 0,
            value,
            event: 0,
        },
        Answer::Done => became(0),
        Answer::Sent => became(1),
        Answer::Held => became(2),
        Answer::Merged => became(3),
        Answer::Lost => became(4),
    }
}

// Writes the card of an outcome over the bytes of the card before it.
pub fn hand_out(bytes: &mut [u8], outcome: Outcome) -> Numbers
    requires { length bytes.old ≡ 289 }
    ensures { (result ≡ numbers_of outcome.answer) × (bytes.new ≡ card_bytes (world_of outcome.card [] [])) }
{
    let card = outcome.card;
    let answer = outcome.answer;
    image::put::put_card(bytes, card);
    numbers_of(answer)
}

// The same where the call was accepted; a refused one leaves the bytes. The test is by the number, as in `card_over`.
pub fn hand_back(bytes: &mut [u8], outcome: Outcome) -> Numbers
    requires { length bytes.old ≡ 289 }
    ensures { (result ≡ numbers_of outcome.answer) × (bytes.new ≡ card_over (refusal_of outcome.answer) bytes.old (world_of outcome.card [] [])) }
{
    let answer = outcome.answer;
    let numbers = numbers_of(answer);
    if numbers.refusal != 0 {
        return numbers;
    }
    hand_out(bytes, outcome)
}
