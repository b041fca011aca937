// The card that an image holds, and whether a sound card saves that image.
ghost use Rattle.std.specs.Prelude.{◌≡◌, true, ◌≤◌, length, take};
ghost use Rattle.words.specs.Lists.{same};
ghost use Rattle.words.specs.Bytes.{word16};
ghost use Rattle.model.specs.Shape.{shape_of, table_bytes};
ghost use Rattle.model.specs.World.{card_of};
ghost use Rattle.model.specs.Image.{mark, world_in, is_saved};
ghost use Rattle.snapshot.specs.Reads.{Reads};

use image::format::Image;
use model::Card;
use model::refusal::Refusal;

// The card of an image.
pub fn held_card(image: &[u8]) -> Card
    requires { 294 ≤ length image.now }
    ensures { result ≡ card_of (world_in image.now) }
{
    let function = image::get::card_function(image);
    Card {
        function,
        wire: image::get::wire(image),
    }
}

// The length of a card's table.
pub fn table_length(card: Card) -> usize
    ensures { (result ≡ table_bytes (shape_of card.function.config)) × (result ≤ 32768) }
{
    let config = card.function.config;
    let found = layout::capability::read_list(&config);
    let s = layout::shape::shape(&config, found);
    layout::start::table_bytes(s)
}

// Whether a sound card saves this image, which has the mark and version 1: the card is the one that it holds, with n bytes of table.
pub fn is_saved(image: &[u8], card: Card, n: usize) -> bool
    requires { (294 ≤ length image.now) × (same (take 3 image.now) mark ≡ true) × (word16 image.now 3 ≡ 1)
        × (card ≡ card_of (world_in image.now)) × (n ≡ table_bytes (shape_of card.function.config)) × (n ≤ 32768) }
    ensures { result ≡ is_saved image.now }
{
    if !image::get::flags_clean(image) {
        return false;
    }
    let start = Image::TABLE;
    let middle = start + n;
    if image.len() < middle {
        return false;
    }
    card::sound::check(&card, &image[start..middle], &image[middle..]).is_some()
}

// The card of an image that some sound card saves, and the length of its table.
#[derive(Clone, Copy)]
pub struct Held {
    pub card: Card,
    pub table: usize,
}

// The checks of a restore, but for that of the lent buffers.
#[inline(always)]
pub fn read(image: &[u8]) -> Result<Held, Refusal>
    ensures { Reads image.now result }
{
    if image.len() < Image::TABLE {
        return Err(Refusal::Mark);
    }
    if !image::get::is_marked(image) {
        return Err(Refusal::Mark);
    }
    if image::get::version(image) != Image::VERSION {
        return Err(Refusal::Version);
    }
    let card = held_card(image);
    let table = table_length(card);
    if !is_saved(image, card, table) {
        return Err(Refusal::Image);
    }
    Ok(Held { card, table })
}
