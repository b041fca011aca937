// An answer of the card to a record's call.
ghost use Rattle.std.specs.Prelude.{◌≡◌};
ghost use Rattle.call_log.specs.Plays.{lacks_room};

use model::Answer;
use model::refusal::Refusal;

// Whether it is 6: the output had too little room, and nothing was done.
// Kept as `let .. else`: docs/DECISIONS.md has it among the forms that document 01 names.
pub fn lacks_room(answer: Answer) -> bool
    ensures { result ≡ lacks_room answer }
{
    let Answer::Refused(number) = answer else {
        return false;
    };
    number == Refusal::Room as u8
}
