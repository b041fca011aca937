// Bits and bytes of a number.
ghost use Rattle.std.specs.Prelude.{◌≡◌, ◌-◌, ◌^◌, ◌<◌, ◌≤◌};
ghost use Rattle.words.specs.Bits.{bit, merge};
ghost use Rattle.words.specs.Bytes.{byte, bytes_of};
ghost use Rattle.words.specs.Lowest.{Lowest};

// `old` with the bits of `mask` taken from `new`.
pub fn merge(mask: u8, old: u8, new: u8) -> u8
    ensures { result ≡ merge mask old new }
{
    (mask & new) | (!mask & old)
}

// The number of the lowest set bit.
pub fn lowest(w: u64) -> u32
    requires { 0 < w }
    ensures { Lowest w result }
{
    u64::trailing_zeros(w)
}

// Bit k of a byte.
pub fn bit(x: u8, k: usize) -> bool
    requires { k < 8 }
    ensures { result ≡ bit x k }
{
    word_bit(u32::from(x), k)
}

// Bit k of a word.
pub fn word_bit(w: u32, k: usize) -> bool
    requires { k < 32 }
    ensures { result ≡ bit w k }
{
    (w >> k) % 2 == 1
}

// The n lowest bits.
pub fn below(n: u32) -> u32
    requires { n ≤ 32 }
    ensures { result ≡ 2 ^ n - 1 }
{
    ((1u64 << n) - 1) as u32
}

// Byte k of a word, the lowest first.
pub fn byte_of(x: u32, k: usize) -> u8
    requires { k < 4 }
    ensures { result ≡ byte (bytes_of 4 x) k }
{
    x.to_le_bytes()[k]
}
