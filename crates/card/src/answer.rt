// Answers compared.
ghost use Rattle.std.specs.Prelude.{◌≡◌};
ghost use Rattle.model.specs.Answers.{same_answer};
ghost use Rattle.card.specs.Outcomes.{code_of};

use model::Answer;

// A number for each kind of answer, and the number of a refusal or the value of a read or a withdrawal.
#[derive(Clone, Copy)]
pub struct Code {
    pub kind: u8,
    pub detail: u64,
}

fn code_of(a: Answer) -> Code
    ensures { result ≡ code_of a }
{
    match a {
        Answer::Refused(n) => Code {
            kind: 0,
            detail: n as u64,
        },
        Answer::Done => Code { kind: 1, detail: 0 },
        Answer::Value(v) => Code { kind: 2, detail: v },
        Answer::Sent => Code { kind: 3, detail: 0 },
        Answer::Held => Code { kind: 4, detail: 0 },
        Answer::Merged => Code { kind: 5, detail: 0 },
        Answer::Lost => Code { kind: 6, detail: 0 },
    }
}

pub fn same_answer(a: Answer, b: Answer) -> bool
    ensures { result ≡ same_answer a b }
{
    let x = code_of(a);
    let y = code_of(b);
    (x.kind == y.kind) & (x.detail == y.detail)
}
