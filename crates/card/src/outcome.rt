// What a call hands back.
ghost use Rattle.std.specs.Prelude.{◌≡◌};
ghost use Rattle.model.specs.Refusals.{number_of};
ghost use Rattle.card.specs.Outcomes.{refused_with, accepted_with};

use model::refusal::Refusal;
use model::{Answer, Card};

// The card after the call, its answer, and how many bytes of the output are new. No `Result`: a refused call hands its card back, and the
// definition `after` reads all three of both.
#[derive(Clone, Copy)]
pub struct Outcome {
    pub card: Card,
    pub answer: Answer,
    pub count: usize,
}

// Refused with a number: the card as it was given.
pub fn refused(card: Card, number: u8) -> Outcome
    ensures { result ≡ refused_with card number }
{
    Outcome {
        card,
        answer: Answer::Refused(number),
        count: 0,
    }
}

// Refused for a reason.
pub fn refuse(card: Card, why: Refusal) -> Outcome
    ensures { result ≡ refused_with card (number_of why) }
{
    refused(card, why.number())
}

// Accepted: the next card, the answer and the number of bytes.
pub fn accepted(card: Card, answer: Answer, count: usize) -> Outcome
    ensures { result ≡ accepted_with card answer count }
{
    Outcome {
        card,
        answer,
        count,
    }
}
