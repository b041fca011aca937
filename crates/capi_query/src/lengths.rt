// The vectors and the lengths of table and pending array, of a configuration and of an image.
ghost use Rattle.std.specs.Prelude.{◌≡◌, ◌≤◌, length};
ghost use Rattle.model.specs.Shape.{shape_of};
ghost use Rattle.model.specs.Sound.{shape};
ghost use Rattle.model.specs.Image.{world_in};
ghost use Rattle.capi_query.specs.Lengths.{lengths, told, told_of, config_lengths, image_lengths};

use image::format::Image;
use model::refusal::Refusal;
use snapshot::held::{held_card, is_saved, table_length};

// What is told.
#[derive(Clone, Copy, Debug, PartialEq, Eq)]
pub struct Lengths {
    pub vectors: usize,
    pub table: usize,
    pub pending: usize,
}

fn lengths_of(config: &[u8; 256]) -> Lengths
    ensures { result ≡ told_of (shape_of config.now) }
{
    let found = layout::capability::read_list(config);
    let s = layout::shape::shape(config, found);
    Lengths {
        vectors: s.msix.vectors,
        table: layout::start::table_bytes(s),
        pending: layout::start::pending_bytes(s),
    }
}

fn config_lengths(config: &[u8]) -> Result<Lengths, Refusal>
    ensures { told result ≡ config_lengths config.now }
{
    let config = config.as_array::<256>().ok_or(Refusal::Lengths)?;
    Ok(lengths_of(config))
}

// Of the card in an image, which is read again here: told beside the checks, the lengths take 272 bytes of stack more.
fn held_lengths(image: &[u8]) -> Lengths
    requires { 294 ≤ length image.now }
    ensures { result ≡ told_of (shape (world_in image.now).endpoint) }
{
    let held = held_card(image);
    lengths_of(&held.function.config)
}

// The checks of a restore, but for that of the lent buffers, written out: a `Result` with a card, as `snapshot::held::read` has, needs `memset`,
// and with one function for this and a restore two edits of this crate would have no place here.
fn image_lengths(image: &[u8]) -> Result<Lengths, Refusal>
    ensures { told result ≡ image_lengths image.now }
{
    if image.len() < Image::TABLE {
        return Err(Refusal::Mark);
    }
    if !image::get::is_marked(image) {
        return Err(Refusal::Mark);
    }
    if image::get::version(image) != Image::VERSION {
        return Err(Refusal::Version);
    }
    let held = held_card(image);
    let n = table_length(held);
    if !is_saved(image, held, n) {
        return Err(Refusal::Image);
    }
    Ok(held_lengths(image))
}

// Writes what is told, zeros beside a refusal.
fn write_out(
    found: Result<Lengths, Refusal>,
    vectors: &mut usize,
    table_len: &mut usize,
    pending_len: &mut usize,
) -> u8
    ensures { lengths result vectors.new table_len.new pending_len.new ≡ told found }
{
    match found {
        Ok(l) => {
            *vectors = l.vectors;
            *table_len = l.table;
            *pending_len = l.pending;
            0
        }
        Err(why) => {
            *vectors = 0;
            *table_len = 0;
            *pending_len = 0;
            why.number()
        }
    }
}

pub fn musgarento_config_lengths(
    config: &[u8],
    vectors: &mut usize,
    table_len: &mut usize,
    pending_len: &mut usize,
) -> u8
    ensures { lengths result vectors.new table_len.new pending_len.new ≡ config_lengths config.now }
{
    write_out(config_lengths(config), vectors, table_len, pending_len)
}

pub fn musgarento_image_lengths(
    image: &[u8],
    vectors: &mut usize,
    table_len: &mut usize,
    pending_len: &mut usize,
) -> u8
    ensures { lengths result vectors.new table_len.new pending_len.new ≡ image_lengths image.now }
{
    write_out(image_lengths(image), vectors, table_len, pending_len)
}
