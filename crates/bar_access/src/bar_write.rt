// The call that writes a BAR.
ghost use Rattle.std.specs.Prelude.{◌≡◌, ◌+◌, ◌%◌, ◌<◌, ◌≤◌, length};
ghost use Rattle.words.specs.Bytes.{bytes_of};
ghost use Rattle.model.specs.World.{world_of};
ghost use Rattle.model.specs.Calls.{performed, step, bar_write, settle_of};
ghost use Rattle.card.specs.Outcomes.{after};
ghost use Rattle.card.specs.Running.{Running};
ghost use Rattle.bar_access.specs.Entries.{table_written};

use crate::bounds::bad_bar;
use crate::entry::{entry_after, is_owed};
use card::outcome::{Outcome, accepted, refuse};
use model::refusal::Refusal;
use model::{Answer, Card, Profile};
use registers::bar::in_table;
use registers::table::table_written;
use tlp::message_size;
use vectors::entry::entry_vector;
use vectors::message::{entry_message, put_vector_message};
use vectors::mode::command_bit;
use vectors::waiting::change_pending;

// The n low bytes of a value are written at place `at` of the table of a sound card. Only the vector of that entry can then
// be open and wait: whether it sends is known before anything changes.
fn write_entry(
    card: Card,
    k: Profile,
    table: &mut [u8],
    pending: &mut [u8],
    at: usize,
    n: usize,
    value: u64,
    out: &mut [u8],
) -> Outcome
    requires { Running card table.old pending.old k × (at % 8 + n ≤ 8) × (at < length table.old) }
    ensures { after result table.new pending.new out.new
        ≡ settle_of (world_of card table.old pending.old) k.shape
        (table_written (world_of card table.old pending.old) at (bytes_of n value)) out.old }
{
    let v = entry_vector(at);
    let entry = entry_after(table, at, n, value);
    if !is_owed(&card.function.config, k, &entry, pending, v) {
        table_written(table, at, n, value);
        return accepted(card, Answer::Done, 0);
    }
    let m = entry_message(&entry);
    if out.len() < message_size(m.upper) {
        return refuse(card, Refusal::Room);
    }
    table_written(table, at, n, value);
    change_pending::<false>(pending, v);
    let count = put_vector_message(out, card.function.requester, m);
    accepted(card, Answer::Done, count)
}

// Writes 4 or 8 bytes of the MSI-X table of a sound card. A write to the pending array is accepted and changes nothing.
pub fn bar_write_core(
    card: Card,
    k: Profile,
    table: &mut [u8],
    pending: &mut [u8],
    bar: u8,
    offset: u32,
    width: u8,
    value: u64,
    out: &mut [u8],
) -> Outcome
    requires { Running card table.old pending.old k }
    ensures { after result table.new pending.new out.new
        ≡ performed (world_of card table.old pending.old) (bar_write bar offset width value out.old) }
{
    if bad_bar(k.shape, bar, offset, width) {
        return refuse(card, Refusal::BarAccess);
    }
    if !command_bit(&card.function.config, 1) {
        return refuse(card, Refusal::MemorySpace);
    }
    if !in_table(k.shape, bar, offset) {
        return accepted(card, Answer::Done, 0);
    }
    let at = (offset as usize) - k.shape.msix.table.at;
    write_entry(card, k, table, pending, at, width as usize, value, out)
}

pub fn bar_write(
    card: Card,
    table: &mut [u8],
    pending: &mut [u8],
    bar: u8,
    offset: u32,
    width: u8,
    value: u64,
    out: &mut [u8],
) -> Outcome
    ensures { after result table.new pending.new out.new
        ≡ step (world_of card table.old pending.old) (bar_write bar offset width value out.old) }
{
    let Some(found) = card::sound::check(&card, table, pending) else {
        return refuse(card, Refusal::NotSound);
    };
    bar_write_core(
        card,
        found.profile,
        table,
        pending,
        bar,
        offset,
        width,
        value,
        out,
    )
}
