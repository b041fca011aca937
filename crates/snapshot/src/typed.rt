// What the types of a program say: a card by value is typed, and what is lent are bytes. So the theorems on images hold of every
// card and image that a program can hold. Nothing is computed here but a length; the contracts are what counts.
ghost use Rattle.std.specs.Prelude.{◌≡◌, List, ℕ, length};
ghost use Rattle.words.specs.Bytes.{Bytes};
ghost use Rattle.model.specs.World.{World, world_of};
ghost use Rattle.model.specs.Claims.{Typed, AcceptedIfSaved, RefusedIfUnsaved, Resumes};

use model::Card;

pub fn card_typed(card: Card)
    ensures { (table pending : List ℕ) → Typed (world_of card table pending) }
{}

fn count(bytes: &[u8]) -> usize
    ensures { result ≡ length bytes.now }
{
    bytes.len()
}

pub fn lent_bytes(bytes: &[u8]) -> usize
    ensures { (result ≡ length bytes.now) × Bytes bytes.now }
{
    count(bytes)
}

// A restore of a save of this card resumes as if at once after the save.
pub fn restore_resumes(card: Card)
    ensures { (table pending : List ℕ) → Resumes (world_of card table pending) }
{
    card_typed(card);
}

// A restore accepts this image exactly if saving some sound card writes it, and refuses it with 22 exactly if none does.
pub fn image_exact(image: &[u8]) -> usize
    ensures { (result ≡ length image.now)
        × ((w : World) → AcceptedIfSaved w image.now × RefusedIfUnsaved w image.now) }
{
    lent_bytes(image)
}
