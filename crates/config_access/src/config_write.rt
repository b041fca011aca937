// The call that writes the configuration.
ghost use Rattle.std.specs.Prelude.{◌≡◌};
ghost use Rattle.model.specs.World.{world_of};
ghost use Rattle.model.specs.Calls.{performed, step, config_write};
ghost use Rattle.card.specs.Outcomes.{after};
ghost use Rattle.card.specs.Running.{Running, Wires};

use card::outcome::{Outcome, refuse};
use model::refusal::Refusal;
use model::{Card, Profile};
use wire::Wiring;

// Writes the low 1, 2 or 4 bytes of a value to a sound card; then the wire and the open waiting vectors send, by the mechanism
// that the new registers put in force.
pub fn config_write_core(
    card: Card,
    k: Profile,
    w: Wiring,
    table: &[u8],
    pending: &mut [u8],
    offset: u16,
    width: u8,
    value: u32,
    out: &mut [u8],
) -> Outcome
    requires { Running card table.now pending.old k × Wires card k w }
    ensures { after result table.now pending.new out.new
        ≡ performed (world_of card table.now pending.old) (config_write offset width value out.old) }
{
    if crate::bounds::bad_config(offset, width) {
        return refuse(card, Refusal::ConfigAccess);
    }
    let s = k.shape;
    let form = k.form;
    let stored = card.function.config;
    let config = registers::config::config_written(
        stored,
        s,
        form,
        offset as usize,
        width as usize,
        value,
    );
    let f = card::changed::with_config(card.function, config);
    let mode = vectors::mode::mode(&f.config, s);
    let now = Profile {
        shape: s,
        form,
        mode,
    };
    card::settle::settle(card, f, w, now, table, pending, out)
}

pub fn config_write(
    card: Card,
    table: &[u8],
    pending: &mut [u8],
    offset: u16,
    width: u8,
    value: u32,
    out: &mut [u8],
) -> Outcome
    ensures { after result table.now pending.new out.new
        ≡ step (world_of card table.now pending.old) (config_write offset width value out.old) }
{
    let Some(found) = card::sound::check(&card, table, pending) else {
        return refuse(card, Refusal::NotSound);
    };
    let k = found.profile;
    let w = found.wiring;
    config_write_core(card, k, w, table, pending, offset, width, value, out)
}
