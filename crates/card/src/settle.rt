// What follows a change of the registers: the wire goes to the level that it should have, and the open waiting vectors send.
ghost use Rattle.std.specs.Prelude.{◌≡◌};
ghost use Rattle.model.specs.World.{endpoint_of, world_of};
ghost use Rattle.model.specs.Calls.{settle_of};
ghost use Rattle.card.specs.Outcomes.{after};
ghost use Rattle.card.specs.Running.{Unsettled};

use crate::outcome::{Outcome, accepted, refuse};
use model::refusal::Refusal;
use model::{Answer, Card, Function, Profile};
use wire::Wiring;

// A changed function on a card: 6 where the packets that it owes are longer than the output, else the wire's packet and the
// open waiting vectors'. The wire's state is the one before the change.
pub fn settle(
    card: Card,
    f: Function,
    w: Wiring,
    k: Profile,
    table: &[u8],
    pending: &mut [u8],
    out: &mut [u8],
) -> Outcome
    requires { Unsettled card f table.now pending.old w k }
    ensures { after result table.now pending.new out.new
        ≡ settle_of (world_of card table.now pending.old) k.shape (endpoint_of f table.now pending.old)
        out.old }
{
    let disabled = vectors::mode::command_bit(&f.config, 10);
    let wired = w.set_mode(k.mode, disabled);
    let owed = wired.owed;
    let first = wire::owed_size(owed);
    let rest = endpoint::sweep::owed_size(&f, k, table, pending);
    if out.len() < first + rest {
        return refuse(card, Refusal::Room);
    }
    let at = wire::put_owed(out, owed, f.requester, w.pin);
    let sent = endpoint::sweep::send_owed(&f, k, table, pending, &mut out[at..]);
    let function = crate::changed::with_waiting(f, sent.waiting);
    let wire = wired.wiring.wire;
    accepted(Card { function, wire }, Answer::Done, at + sent.count)
}
