// Playing a case: its rows, one after another.
ghost use Rattle.std.specs.Prelude.{◌≡◌, true, ◌≤◌};
ghost use Rattle.model.specs.Play.{played, played_all};
ghost use Rattle.model.specs.Play as Play;
ghost use Rattle.cases.specs.Steps.{bytes_at, operation_of, step_of, row_steps, case_count};
ghost use Rattle.cases.specs.Runs.{seen};

use crate::row::{Kind, Row};
use crate::run::{Run, judge};
use crate::table::ROW_COUNT;
use card::answer::same_answer;
use words::parts::part;

// What an output holds before a call.
const FRESH: [u8; 300] = [0xee; 300];

// A row's call, printed, and compared with what it should give.
fn play_call(rt: &impl Print, run: Run, row: Row, bytes: &[u8]) -> Run
    ensures { seen result ≡ played (seen run) (Play.does (operation_of bytes.now row) (bytes_at bytes.now row.place row.size) row.answer) }
{
    crate::print_call(rt, row, bytes);
    let called = crate::calls::call(run, row, bytes);
    let o = called.outcome;
    let given = o.answer;
    let out = called.out;
    let n = called.room;
    let sent = part(&out, 0, n);
    let expected = part(bytes, row.place as usize, row.size as usize);
    let good = same_answer(given, row.answer)
        & (o.count == expected.len())
        & words::compare::is_over(sent, expected, part(&FRESH, 0, n));
    crate::print_result(rt, row, o, sent, good);
    let next = called.run;
    let after = judge(next, good);
    crate::print_after(rt, row, after);
    after
}

// One step.
fn play(rt: &impl Print, run: Run, row: Row, bytes: &[u8]) -> Run
    ensures { seen result ≡ played (seen run) (step_of bytes.now row) }
{
    match row.kind {
        Kind::New => {
            crate::print_title(rt, row, bytes);
            crate::run::lend(run, row.b)
        }
        _ => play_call(rt, run, row, bytes),
    }
}

// One step, if it belongs to the case.
fn play_row(rt: &impl Print, run: Run, number: u8, row: Row, bytes: &[u8]) -> Run
    ensures { seen result ≡ played_all (seen run) (row_steps number bytes.now row) }
{
    if row.number == number {
        return play(rt, run, row, bytes);
    }
    run
}

// Whether the case with this number is as the papers say.
pub fn case(rt: &impl Print, number: u8) -> bool
    ensures { 1 ≤ number → number ≤ case_count → result ≡ true }
{
    let table = crate::table::bench();
    let rows = table.rows;
    let bytes = table.bytes;
    let mut run = crate::run::new();
    for i in 0..ROW_COUNT {
        let row = crate::row::row_at(&rows, i);
        run = play_row(rt, run, number, row, &bytes);
    }
    run.good
}
