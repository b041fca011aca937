// The calls of the rows.
ghost use Rattle.std.specs.Prelude.{◌≡◌, [], ◌≤◌, length};
ghost use Rattle.model.specs.World.{world_of, endpoint_of, zero_function};
ghost use Rattle.model.specs.Calls.{operate, start_of, start_given};
ghost use Rattle.model.specs.Cases.{sizes_of};
ghost use Rattle.card.specs.Outcomes.{after};
ghost use Rattle.cases.specs.Steps.{config_at, operation_over, room_of};
ghost use Rattle.cases.specs.Runs.{Calls};

use crate::row::{Kind, Row};
use crate::run::Run;
use card::outcome::Outcome;
use model::Card;
use words::parts::clipped;

// The requester ID of every case.
const REQUESTER: u16 = 0x0100;

// The length of the output that a call is lent.
fn room(row: Row) -> usize
    ensures { result ≡ room_of row }
{
    match row.kind {
        Kind::Start | Kind::Read | Kind::BarRead => 0,
        Kind::Write | Kind::BarWrite | Kind::Line => 64,
        _ => row.b as usize, // casts that widen stay: with `From` the proofs of four functions here did not close
    }
}

fn start(row: Row, bytes: &[u8], table: &mut [u8], pending: &mut [u8]) -> Outcome
    ensures { after result table.new pending.new []
        ≡ start_of (endpoint_of zero_function table.old pending.old)
        (start_given (endpoint_of zero_function table.old pending.old) (config_at bytes.now row.place) (sizes_of row.c row.a)
        row.b 0x100) }
{
    let config = crate::config::config_at(bytes, row.place);
    let sizes = [row.c, row.a as u32, 0, 0, 0, 0];
    lifecycle::start::start(config, sizes, row.b, REQUESTER, table, pending)
}

// A row's call.
fn perform(
    card: Card,
    row: Row,
    bytes: &[u8],
    table: &mut [u8],
    pending: &mut [u8],
    out: &mut [u8],
) -> Outcome
    requires { length out.old ≤ room_of row }
    ensures { after result table.new pending.new out.new
        ≡ operate (world_of card table.old pending.old) (operation_over bytes.now row out.old) }
{
    let width = (row.b % 256) as u8;
    match row.kind {
        Kind::Start => start(row, bytes, table, pending),
        Kind::Read => config_access::config_read::config_read(card, table, pending, row.a, width),
        Kind::BarRead => bar_access::bar_read::bar_read(
            card,
            table,
            pending,
            0,
            row.a as u32,
            width,
        ),
        Kind::Write => config_access::config_write::config_write(
            card, table, pending, row.a, width, row.c, out,
        ),
        Kind::BarWrite => bar_access::bar_write::bar_write(
            card,
            table,
            pending,
            0,
            row.a as u32,
            width,
            row.c as u64,
            out,
        ),
        Kind::Line => interrupt::line::line(card, table, pending, row.b != 0, out),
        Kind::Event => interrupt::event::event(card, table, pending, row.a, out),
        _ => snapshot::save::save(card, table, pending, out),
    }
}

// What a call gave, with the output and its length, and the run with the card and the buffers after it. The output is an array, of which a call is
// lent `room` bytes: memory is fixed.
#[derive(Clone, Copy)]
pub struct Called {
    pub run: Run,
    pub outcome: Outcome,
    pub out: [u8; 300],
    pub room: usize,
}

// A row's call on the run's card, over the parts of the buffers that it is lent: 16N bytes, and 8 x (N/64 rounded up) bytes.
pub fn call(run: Run, row: Row, bytes: &[u8]) -> Called
    ensures { Calls run bytes.now row result }
{
    let card = run.card;
    let mut table = run.table;
    let mut pending = run.pending;
    let mut out = [0xee; 300];
    let vectors = run.vectors as usize;
    let t = clipped(16 * vectors, &table);
    let p = clipped(8 * ((vectors + 63) / 64), &pending);
    let n = clipped(room(row), &out);
    let outcome = perform(
        card,
        row,
        bytes,
        &mut table[..t],
        &mut pending[..p],
        &mut out[..n],
    );
    Called {
        run: Run {
            card: outcome.card,
            table,
            pending,
            ..run
        },
        outcome,
        out,
        room: n,
    }
}
