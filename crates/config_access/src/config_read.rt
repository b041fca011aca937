// The call that reads the configuration.
ghost use Rattle.std.specs.Prelude.{◌≡◌, []};
ghost use Rattle.model.specs.World.{world_of};
ghost use Rattle.model.specs.Calls.{performed, step, config_read};
ghost use Rattle.card.specs.Outcomes.{after};
ghost use Rattle.card.specs.Running.{Running};

use crate::bounds::bad_config;
use card::outcome::{Outcome, accepted, refuse};
use model::refusal::Refusal;
use model::{Answer, Card, Profile};
use registers::config::config_value;

// Reads 1, 2 or 4 bytes of the configuration of a sound card.
pub fn config_read_core(
    card: Card,
    k: Profile,
    table: &[u8],
    pending: &[u8],
    offset: u16,
    width: u8,
) -> Outcome
    requires { Running card table.now pending.now k }
    ensures { after result table.now pending.now [] ≡ performed (world_of card table.now pending.now) (config_read offset width) }
{
    if bad_config(offset, width) {
        return refuse(card, Refusal::ConfigAccess);
    }
    let value = config_value(
        &card.function.config,
        card.function.line,
        card.function.waiting,
        k.shape,
        k.form,
        offset as usize,
        width as usize,
    );
    accepted(card, Answer::Value(value as u64), 0)
}

pub fn config_read(card: Card, table: &[u8], pending: &[u8], offset: u16, width: u8) -> Outcome
    ensures { after result table.now pending.now [] ≡ step (world_of card table.now pending.now) (config_read offset width) }
{
    let Some(found) = card::sound::check(&card, table, pending) else {
        return refuse(card, Refusal::NotSound);
    };
    config_read_core(card, found.profile, table, pending, offset, width)
}
