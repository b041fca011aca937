// What an image holds, and what a card's bytes hold.
ghost use Rattle.std.specs.Prelude.{◌≡◌, ◌+◌, ◌-◌, ◌≤◌, ltb, length, take, drop};
ghost use Rattle.words.specs.Lists.{same};
ghost use Rattle.words.specs.Bits.{bit};
ghost use Rattle.words.specs.Bytes.{byte, part, word16, words32};
ghost use Rattle.model.specs.Image.{mark, function_in, function_from, card_in};

use crate::format::Image;
use model::{Card, Function};

// An image begins with the mark.
pub fn is_marked(image: &[u8]) -> bool
    ensures { result ≡ same (take 3 image.now) mark }
{
    image.starts_with(&Image::MARK)
}

pub fn version(image: &[u8]) -> u16
    requires { 5 ≤ length image.now }
    ensures { result ≡ word16 image.now 3 }
{
    words::get::word16(image, Image::VERSION_AT)
}

// The 256 configuration bytes from place `at` on: an array of zeros, filled byte by byte, as document 01 names it by place.
pub fn config_at(s: &[u8], at: usize) -> [u8; 256]
    requires { at + 256 ≤ length s.now }
    ensures { result ≡ part at 256 s.now }
{
    let mut config = [0u8; 256];
    for i in 0..256 {
        config[i] = s[at + i];
    }
    config
}

// The six sizes from place `at` on. An `array::from_fn` was tried: its contract did not give that each of the six is read from the same slice.
fn sizes_at(s: &[u8], at: usize) -> [u32; 6]
    requires { at + 24 ≤ length s.now }
    ensures { result ≡ words32 6 (drop at s.now) }
{
    [
        words::get::word32(s, at),
        words::get::word32(s, at + 4),
        words::get::word32(s, at + 8),
        words::get::word32(s, at + 12),
        words::get::word32(s, at + 16),
        words::get::word32(s, at + 20),
    ]
}

// Bit 0 of a card's flags is the line, bit 1 the wire.
#[derive(Clone, Copy)]
struct Flags(u8);

impl Flags {
    fn line(self) -> bool
        ensures { result ≡ bit self.0 0 }
    {
        self.0 % 2 == 1
    }

    fn wire(self) -> bool
        ensures { result ≡ bit self.0 1 }
    {
        self.0 / 2 % 2 == 1
    }

    // No other flag is set.
    fn are_clean(self) -> bool
        ensures { result ≡ ltb self.0 4 }
    {
        self.0 < 4
    }
}

// What an image's bytes from offset FIRST on hold.
fn function_from<const FIRST: usize>(s: &[u8]) -> Function
    requires { (FIRST ≤ 5) × (294 ≤ length s.now + FIRST) }
    ensures { result ≡ function_from FIRST s.now }
{
    Function {
        config: config_at(s, Image::CONFIG - FIRST),
        sizes: sizes_at(s, Image::SIZES - FIRST),
        events: words::get::word16(s, Image::EVENTS - FIRST),
        requester: words::get::word16(s, Image::REQUESTER - FIRST),
        line: Flags(s[Image::FLAGS - FIRST]).line(),
        waiting: words::get::word32(s, Image::WAITING - FIRST),
    }
}

// What an image holds.
pub fn card_function(image: &[u8]) -> Function
    requires { 294 ≤ length image.now }
    ensures { result ≡ function_in image.now }
{
    function_from::<0>(image)
}

pub fn wire(image: &[u8]) -> bool
    requires { 6 ≤ length image.now }
    ensures { result ≡ bit (byte image.now 5) 1 }
{
    Flags(image[Image::FLAGS]).wire()
}

pub fn flags_clean(image: &[u8]) -> bool
    requires { 6 ≤ length image.now }
    ensures { result ≡ ltb (byte image.now 5) 4 }
{
    Flags(image[Image::FLAGS]).are_clean()
}

// What a card's bytes hold: those of its image from the flags to the last configuration byte.
pub fn card_of(bytes: &[u8]) -> Card
    requires { 289 ≤ length bytes.now }
    ensures { result ≡ card_in bytes.now }
{
    let function = function_from::<{ Image::FLAGS }>(bytes);
    Card {
        function,
        wire: Flags(bytes[0]).wire(),
    }
}

pub fn card_flags_clean(bytes: &[u8]) -> bool
    requires { 1 ≤ length bytes.now }
    ensures { result ≡ ltb (byte bytes.now 0) 4 }
{
    Flags(bytes[0]).are_clean()
}
