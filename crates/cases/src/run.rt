// A case as it runs.
ghost use Rattle.std.specs.Prelude.{◌≡◌, min};
ghost use Rattle.model.specs.Play.{played, lends, unplayed};
ghost use Rattle.cases.specs.Runs.{seen, judged};

use model::{Card, Function};

// The card, N, the table and pending array in buffers that serve every case, and whether every call so far gave what it should.
// The buffers are arrays, of which a call is lent a part: memory is fixed.
#[derive(Clone, Copy)]
pub struct Run {
    pub card: Card,
    pub vectors: u8,
    pub table: [u8; 160],
    pub pending: [u8; 8],
    pub good: bool,
}

// No card yet.
pub fn new() -> Run
    ensures { seen result ≡ unplayed }
{
    let function = Function {
        config: [0; 256],
        sizes: [0; 6],
        events: 0,
        requester: 0,
        line: false,
        waiting: 0,
    };
    let card = Card {
        function,
        wire: false,
    };
    Run {
        card,
        vectors: 0,
        table: [0xee; 160],
        pending: [0xee; 8],
        good: true,
    }
}

// New buffers for so many vectors, and at most ten.
pub fn lend(run: Run, vectors: u16) -> Run
    ensures { seen result ≡ played (seen run) (lends (min vectors 10)) }
{
    Run {
        vectors: vectors.min(10) as u8,
        table: [0xee; 160],
        pending: [0xee; 8],
        ..run
    }
}

// The run after a call that gave what it should, or not.
pub fn judge(run: Run, good: bool) -> Run
    ensures { result ≡ judged run good }
{
    Run {
        good: run.good & good,
        ..run
    }
}
