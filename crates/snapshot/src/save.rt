// Saving a card.
ghost use Rattle.std.specs.Prelude.{◌≡◌};
ghost use Rattle.model.specs.World.{world_of};
ghost use Rattle.model.specs.Calls.{performed, step, save};
ghost use Rattle.card.specs.Outcomes.{after};
ghost use Rattle.card.specs.Running.{Running};

use card::outcome::{Outcome, accepted, refuse};
use image::format::Image;
use model::refusal::Refusal;
use model::{Answer, Card, Profile};

// Saves a sound card: its image stands at the start of the output.
pub fn save_core(card: Card, k: Profile, table: &[u8], pending: &[u8], out: &mut [u8]) -> Outcome
    requires { Running card table.now pending.now k }
    ensures { after result table.now pending.now out.new ≡ performed (world_of card table.now pending.now) (save out.old) }
{
    let size = Image::new(table.len(), pending.len()).len();
    if out.len() < size {
        return refuse(card, Refusal::Room);
    }
    let n = image::put::put_image(out, card, table, pending);
    accepted(card, Answer::Done, n)
}

pub fn save(card: Card, table: &[u8], pending: &[u8], out: &mut [u8]) -> Outcome
    ensures { after result table.now pending.now out.new ≡ step (world_of card table.now pending.now) (save out.old) }
{
    let Some(found) = card::sound::check(&card, table, pending) else {
        return refuse(card, Refusal::NotSound);
    };
    save_core(card, found.profile, table, pending, out)
}
