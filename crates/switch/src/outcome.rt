// What a call hands back.
ghost use Rattle.std.specs.Prelude.{◌≡◌};
ghost use Rattle.model.specs.Refusals.{number_of};
ghost use Rattle.switch.specs.Outcomes.{refused_with, accepted_with};

use crate::Switch;
use model::Answer;
use model::refusal::Refusal;

// The switch after the call, its answer, and how many bytes of the output are new. No `Result`, as the definition `after` reads all three.
#[derive(Clone, Copy)]
pub struct Outcome {
    pub switch: Switch,
    pub answer: Answer,
    pub count: usize,
}

// Refused with a number: the switch as it was given.
pub fn refused(switch: Switch, number: u8) -> Outcome
    ensures { result ≡ refused_with switch number }
{
    Outcome {
        switch,
        answer: Answer::Refused(number),
        count: 0,
    }
}

// Refused for a reason.
pub fn refuse(switch: Switch, why: Refusal) -> Outcome
    ensures { result ≡ refused_with switch (number_of why) }
{
    refused(switch, why.number())
}

// Accepted: the next switch and the number of bytes.
pub fn accepted(switch: Switch, count: usize) -> Outcome
    ensures { result ≡ accepted_with switch count }
{
    Outcome {
        switch,
        answer: Answer::Done,
        count,
    }
}
