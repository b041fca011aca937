// Events.
ghost use Rattle.std.specs.Prelude.{◌≡◌, true, List, ℕ, ◌<◌, length};
ghost use Rattle.model.specs.declared.Answer.TheVariants.{Refused};
ghost use Rattle.model.specs.Refusals.{number_of};
ghost use Rattle.model.specs.Shape.{table_bytes};
ghost use Rattle.model.specs.Fit.{Fit};
ghost use Rattle.model.specs.World.{world_of};
ghost use Rattle.model.specs.Vectors.{vector_count, enabled};
ghost use Rattle.model.specs.Release.{raise_vector};
ghost use Rattle.model.specs.Calls.{performed, step, event, raise_of};
ghost use Rattle.vectors.specs.Given.{regs, Profiled};
ghost use Rattle.card.specs.Outcomes.{after};
ghost use Rattle.interrupt.specs.Raises.{sent_by, each_card, each_running, SomeRunning, fated};

use card::outcome::{Outcome, accepted, refuse};
use model::refusal::Refusal;
use model::{Answer, Card, Event, Profile, Vector};
use vectors::event::event_vector;

// What became of an event or a withdrawal: its answer or refusal; how many bytes were sent; and MSI's waiting bits after it.
// No `Result`: the definition `fated` makes an outcome of all three, refused or not.
#[derive(Clone, Copy)]
pub struct Fate {
    pub answer: Answer,
    pub count: usize,
    pub waiting: u32,
}

impl Fate {
    // Answered without a packet, with these waiting bits.
    pub(crate) fn quiet(answer: Answer, waiting: u32) -> Self
        ensures { result ≡ record { answer = answer; count = 0; waiting = waiting } }
    {
        Self {
            answer,
            count: 0,
            waiting,
        }
    }

    // Refused: the waiting bits stay.
    pub(crate) fn refused(why: Refusal, waiting: u32) -> Self
        ensures { result ≡ record { answer = Refused (number_of why); count = 0; waiting = waiting } }
    {
        Self::quiet(Answer::Refused(why.number()), waiting)
    }
}

// Vector v is enabled: its message, or 6.
fn send(card: &Card, k: Profile, table: &[u8], v: Vector, out: &mut [u8]) -> Fate
    requires { Profiled card.now.function.config k × (length table.now ≡ table_bytes k.shape)
        × (enabled k.mode k.shape (regs card.now.function.config table.now) v.0 ≡ true) }
    ensures { (p : List ℕ)
        → each_card card.now.function.config card.now.function.requester card.now.function.waiting
        (λ c. after (fated c result) table.now p out.new
        ≡ raise_of (world_of c table.now p) (sent_by k.mode k.shape (world_of c table.now p).endpoint v.0) out.old) }
{
    let message = vectors::message::vector_message(&card.function.config, k, table, v);
    if out.len() < tlp::message_size(message.upper) {
        return Fate::refused(Refusal::Room, card.function.waiting);
    }
    let count = vectors::message::put_vector_message(out, card.function.requester, message);
    Fate {
        answer: Answer::Sent,
        count,
        waiting: card.function.waiting,
    }
}

// An event for vector v of the mechanism in force: sent, merged or held.
fn raise(
    card: &Card,
    k: Profile,
    v: Vector,
    table: &[u8],
    pending: &mut [u8],
    out: &mut [u8],
) -> Fate
    requires { Profiled card.now.function.config k × Fit k.shape (length table.now) (length pending.old) × (v.0 < vector_count k.mode k.shape) }
    ensures { each_card card.now.function.config card.now.function.requester card.now.function.waiting
        (λ c. after (fated c result) table.now pending.new out.new
        ≡ raise_of (world_of c table.now pending.old) (raise_vector k.mode k.shape (world_of c table.now pending.old).endpoint v.0) out.old) }
{
    if vectors::open::is_open(&card.function.config, k, table, v) {
        return send(card, k, table, v, out);
    }
    let waiting = card.function.waiting;
    if vectors::waiting::waits(k.mode, waiting, pending, v) {
        return Fate::quiet(Answer::Merged, waiting);
    }
    let held = vectors::waiting::change_bit::<true>(k.mode, k.shape, waiting, pending, v);
    Fate::quiet(Answer::Held, held)
}

// Event `number` on a sound card: its vector is sent, held or merged; with the pin in force the event is lost. What becomes of it is the same
// for every running card with this configuration, E, requester ID and MSI waiting bits.
pub fn event_core(
    card: &Card,
    k: Profile,
    table: &[u8],
    pending: &mut [u8],
    number: u16,
    out: &mut [u8],
) -> Fate
    requires { SomeRunning card.now.function.config card.now.function.events card.now.function.requester card.now.function.waiting table.now pending.old k }
    ensures { each_running card.now.function.config card.now.function.events card.now.function.requester card.now.function.waiting table.now pending.old k
        (λ c. after (fated c result) table.now pending.new out.new ≡ performed (world_of c table.now pending.old) (event number out.old)) }
{
    if card.function.events <= number {
        return Fate::refused(Refusal::Event, card.function.waiting);
    }
    let Some(v) = event_vector(&card.function.config, k.shape, k.mode, Event(number)) else {
        return Fate::quiet(Answer::Lost, card.function.waiting);
    };
    raise(card, k, v, table, pending, out)
}

pub fn event(card: Card, table: &[u8], pending: &mut [u8], number: u16, out: &mut [u8]) -> Outcome
    ensures { after result table.now pending.new out.new ≡ step (world_of card table.now pending.old) (event number out.old) }
{
    let Some(found) = card::sound::check(&card, table, pending) else {
        return refuse(card, Refusal::NotSound);
    };
    let fate = event_core(&card, found.profile, table, pending, number, out);
    let function = card::changed::with_waiting(card.function, fate.waiting);
    accepted(Card { function, ..card }, fate.answer, fate.count)
}
