// The line call.
ghost use Rattle.std.specs.Prelude.{◌≡◌};
ghost use Rattle.model.specs.World.{world_of};
ghost use Rattle.model.specs.Calls.{performed, step, line};
ghost use Rattle.card.specs.Outcomes.{after};
ghost use Rattle.card.specs.Running.{Running, Wires};

use card::outcome::{Outcome, accepted, refuse};
use model::refusal::Refusal;
use model::{Answer, Card, Profile};
use wire::Wiring;

// Sets the line of a sound card: at most the wire's packet is sent. The level that it already has is accepted, too.
pub fn line_core(
    card: Card,
    k: Profile,
    w: Wiring,
    table: &[u8],
    pending: &[u8],
    level: bool,
    out: &mut [u8],
) -> Outcome
    requires { Running card table.now pending.now k × Wires card k w }
    ensures { after result table.now pending.now out.new
        ≡ performed (world_of card table.now pending.now) (line level out.old) }
{
    let wired = w.set_line(level);
    let owed = wired.owed;
    if out.len() < wire::owed_size(owed) {
        return refuse(card, Refusal::Room);
    }
    let count = wire::put_owed(out, owed, card.function.requester, w.pin);
    let function = card::changed::with_line(card.function, level);
    let wire = wired.wiring.wire;
    accepted(Card { function, wire }, Answer::Done, count)
}

pub fn line(card: Card, table: &[u8], pending: &[u8], level: bool, out: &mut [u8]) -> Outcome
    ensures { after result table.now pending.now out.new ≡ step (world_of card table.now pending.now) (line level out.old) }
{
    let Some(found) = card::sound::check(&card, table, pending) else {
        return refuse(card, Refusal::NotSound);
    };
    line_core(
        card,
        found.profile,
        found.wiring,
        table,
        pending,
        level,
        out,
    )
}
