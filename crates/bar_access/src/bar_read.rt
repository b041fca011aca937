// The call that reads a BAR.
ghost use Rattle.std.specs.Prelude.{◌≡◌, []};
ghost use Rattle.model.specs.World.{world_of};
ghost use Rattle.model.specs.Calls.{performed, step, bar_read};
ghost use Rattle.card.specs.Outcomes.{after};
ghost use Rattle.card.specs.Running.{Running};

use crate::bounds::bad_bar;
use card::outcome::{Outcome, accepted, refuse};
use model::refusal::Refusal;
use model::{Answer, Card, Profile};
use registers::bar::bar_value;
use vectors::mode::command_bit;

// Reads 4 or 8 bytes of the MSI-X table or the pending array of a sound card.
pub fn bar_read_core(
    card: Card,
    k: Profile,
    table: &[u8],
    pending: &[u8],
    bar: u8,
    offset: u32,
    width: u8,
) -> Outcome
    requires { Running card table.now pending.now k }
    ensures { after result table.now pending.now [] ≡ performed (world_of card table.now pending.now) (bar_read bar offset width) }
{
    if bad_bar(k.shape, bar, offset, width) {
        return refuse(card, Refusal::BarAccess);
    }
    if !command_bit(&card.function.config, 1) {
        return refuse(card, Refusal::MemorySpace);
    }
    let value = bar_value(k.shape, table, pending, bar, offset, width as usize);
    accepted(card, Answer::Value(value), 0)
}

pub fn bar_read(
    card: Card,
    table: &[u8],
    pending: &[u8],
    bar: u8,
    offset: u32,
    width: u8,
) -> Outcome
    ensures { after result table.now pending.now [] ≡ step (world_of card table.now pending.now) (bar_read bar offset width) }
{
    let Some(found) = card::sound::check(&card, table, pending) else {
        return refuse(card, Refusal::NotSound);
    };
    bar_read_core(card, found.profile, table, pending, bar, offset, width)
}
