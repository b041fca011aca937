// Restoring a card.
ghost use Rattle.std.specs.Prelude.{◌≡◌, []};
ghost use Rattle.model.specs.World.{world_of};
ghost use Rattle.model.specs.Calls.{restore_of};
ghost use Rattle.card.specs.Outcomes.{after};

use crate::held::read;
use card::outcome::{Outcome, accepted, refuse};
use image::format::Image;
use model::refusal::Refusal;
use model::{Answer, Card};

// Restores the card of an image into two lent buffers.
pub fn restore(card: Card, image: &[u8], table: &mut [u8], pending: &mut [u8]) -> Outcome
    ensures { after result table.new pending.new [] ≡ restore_of (world_of card table.old pending.old) image.now }
{
    let held = match read(image) {
        Ok(held) => held,
        Err(why) => return refuse(card, why),
    };
    if table.len() != held.table {
        return refuse(card, Refusal::Buffers);
    }
    if pending.len() != image.len() - Image::TABLE - held.table {
        return refuse(card, Refusal::Buffers);
    }
    image::buffers::copy_buffers(image, table, pending);
    accepted(held.card, Answer::Done, 0)
}
