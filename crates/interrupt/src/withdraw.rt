// Withdrawals.
ghost use Rattle.std.specs.Prelude.{◌≡◌, [], ◌≤◌, length};
ghost use Rattle.model.specs.Shape.{pending_bytes};
ghost use Rattle.model.specs.World.{world_of};
ghost use Rattle.model.specs.Calls.{performed, step, withdraw};
ghost use Rattle.card.specs.Outcomes.{after};
ghost use Rattle.interrupt.specs.Raises.{fated, each_waiting};

use crate::event::Fate;
use card::outcome::{Outcome, accepted, refuse};
use model::refusal::Refusal;
use model::{Answer, Card, Profile, Vector};
use vectors::count::vector_count;
use vectors::mode::is_pin;
use vectors::waiting::{change_bit, waits};

// Withdraws vector v of a sound card with these waiting bits: its bit of the mechanism in force is cleared, and the answer
// says whether it was set. Nothing is sent.
pub fn withdraw_core(waiting: u32, k: Profile, pending: &mut [u8], v: Vector) -> Fate
    requires { (k.shape.msi.capable ≤ 5) × (length pending.old ≡ pending_bytes k.shape) }
    ensures { each_waiting waiting pending.old k
        (λ card t. after (fated card result) t pending.new [] ≡ performed (world_of card t pending.old) (withdraw v.0)) }
{
    let mode = k.mode;
    if is_pin(mode) {
        return Fate::refused(Refusal::PinInForce, waiting);
    }
    let n = v.0 as usize;
    if vector_count(mode, k.shape) <= n {
        return Fate::refused(Refusal::Event, waiting);
    }
    let was_set = waits(mode, waiting, pending, v);
    let left = change_bit::<false>(mode, k.shape, waiting, pending, v);
    Fate::quiet(Answer::Value(was_set as u64), left)
}

pub fn withdraw(card: Card, table: &[u8], pending: &mut [u8], v: Vector) -> Outcome
    ensures { after result table.now pending.new [] ≡ step (world_of card table.now pending.old) (withdraw v.0) }
{
    let Some(found) = card::sound::check(&card, table, pending) else {
        return refuse(card, Refusal::NotSound);
    };
    let fate = withdraw_core(card.function.waiting, found.profile, pending, v);
    let function = card::changed::with_waiting(card.function, fate.waiting);
    accepted(Card { function, ..card }, fate.answer, fate.count)
}
