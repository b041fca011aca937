// Reset.
ghost use Rattle.std.specs.Prelude.{◌≡◌, ◌≤◌, length};
ghost use Rattle.words.specs.Writers.{Wrote};
ghost use Rattle.model.specs.World.{world_of};
ghost use Rattle.model.specs.Calls.{performed, step, reset};
ghost use Rattle.wire.specs.Wires.{bytes_owed, size_of};
ghost use Rattle.card.specs.Outcomes.{after};
ghost use Rattle.card.specs.Running.{Running, Wires};

use crate::started::started;
use card::outcome::{Outcome, accepted, refuse};
use model::refusal::Refusal;
use model::{Answer, Card, Function, Profile};
use wire::{Owed, Wiring};

// What a reset sends: the wire's packet. Vectors that wait send nothing. A function of its own, so that what it writes is proved of it alone.
fn send(out: &mut [u8], owed: Owed, f: &Function, pin: u8) -> usize
    requires { (pin ≤ 4) × (size_of owed ≤ length out.old) }
    ensures { Wrote (bytes_owed owed f.now.requester pin) out.old result out.new }
{
    wire::put_owed(out, owed, f.requester, pin)
}

// Sends Deassert if the wire of a sound card is active, then gives the state of a start with the same shape.
pub fn reset_core(
    card: Card,
    k: Profile,
    w: Wiring,
    table: &mut [u8],
    pending: &mut [u8],
    out: &mut [u8],
) -> Outcome
    requires { Running card table.old pending.old k × Wires card k w }
    ensures { after result table.new pending.new out.new ≡ performed (world_of card table.old pending.old) (reset out.old) }
{
    let wired = w.set_wire(false);
    if out.len() < wire::owed_size(wired.owed) {
        return refuse(card, Refusal::Room);
    }
    let count = send(out, wired.owed, &card.function, w.pin);
    let f = card.function;
    let function = started(
        f.config,
        f.sizes,
        f.events,
        f.requester,
        k.shape,
        k.form,
        table,
        pending,
    );
    let wire = wired.wiring.wire;
    accepted(Card { function, wire }, Answer::Done, count)
}

pub fn reset(card: Card, table: &mut [u8], pending: &mut [u8], out: &mut [u8]) -> Outcome
    ensures { after result table.new pending.new out.new ≡ step (world_of card table.old pending.old) (reset out.old) }
{
    let Some(found) = card::sound::check(&card, table, pending) else {
        return refuse(card, Refusal::NotSound);
    };
    reset_core(card, found.profile, found.wiring, table, pending, out)
}
