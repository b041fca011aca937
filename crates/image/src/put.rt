// Images and cards as bytes.
ghost use Rattle.std.specs.Prelude.{◌≡◌, [], ◌++◌, ◌≤◌, length};
ghost use Rattle.words.specs.Lists.{join};
ghost use Rattle.words.specs.Bits.{of_bool};
ghost use Rattle.words.specs.Bytes.{bytes_of};
ghost use Rattle.words.specs.Writers.{Wrote};
ghost use Rattle.model.specs.World.{world_of};
ghost use Rattle.model.specs.Image.{mark, card_bytes, image_of};
ghost use Rattle.image.specs.Layout.{number_bytes, image_size};

use crate::format::Image;
use model::Card;

// Flags, event count, requester ID and MSI waiting bits.
fn numbers(card: Card) -> [u8; Image::NUMBERS]
    ensures { result ≡ number_bytes card }
{
    let f = card.function;
    let [e0, e1] = f.events.to_le_bytes();
    let [r0, r1] = f.requester.to_le_bytes();
    let [w0, w1, w2, w3] = f.waiting.to_le_bytes();
    let flags = u8::from(f.line) + 2 * u8::from(card.wire);
    [flags, e0, e1, r0, r1, w0, w1, w2, w3]
}

// The six sizes, one behind another.
fn put_sizes(out: &mut [u8], sizes: [u32; 6]) -> usize
    requires { 24 ≤ length out.old }
    ensures { Wrote (join (bytes_of 4) sizes) out.old result out.new }
{
    let mut at: usize = 0;
    for size in &sizes {
        at += words::put::put_le(&mut out[at..], 4, u64::from(*size));
    }
    at
}

// A card's bytes: those of its image from the flags to the last configuration byte.
pub fn put_card(out: &mut [u8], card: Card) -> usize
    requires { 289 ≤ length out.old }
    ensures { Wrote (card_bytes (world_of card [] [])) out.old result out.new }
{
    let numbers = numbers(card);
    let sizes = card.function.sizes;
    let config = card.function.config;
    let a = words::put::put_slice(out, &numbers);
    let b = a + put_sizes(&mut out[a..], sizes);
    b + words::put::put_slice(&mut out[b..], &config)
}

// Mark and version.
fn put_start(out: &mut [u8]) -> usize
    requires { 5 ≤ length out.old }
    ensures { Wrote (mark ++ bytes_of 2 1) out.old result out.new }
{
    let mark = Image::MARK;
    let at = words::put::put_slice(out, &mark);
    at + words::put::put_le(&mut out[at..], 2, Image::VERSION as u64)
}

// A card's image.
pub fn put_image(out: &mut [u8], card: Card, table: &[u8], pending: &[u8]) -> usize
    requires { image_size (length table.now) (length pending.now) ≤ length out.old }
    ensures { Wrote (image_of (world_of card table.now pending.now)) out.old result out.new }
{
    let a = put_start(out);
    let b = a + put_card(&mut out[a..], card);
    let c = b + words::put::put_slice(&mut out[b..], table);
    c + words::put::put_slice(&mut out[c..], pending)
}
