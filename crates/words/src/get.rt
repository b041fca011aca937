ghost use Rattle.std.specs.Prelude.{◌≡◌, ◌+◌, ◌≤◌, length};
ghost use Rattle.words.specs.Bytes.{byte, number, word16, word32, word64, high16, high32};

use crate::parts::array_at;

// The numbers of two, four and eight bytes from place `at` on, the lowest byte first.
pub fn word16(s: &[u8], at: usize) -> u16
    requires { at + 2 ≤ length s.now }
    ensures { result ≡ word16 s.now at }
{
    u16::from_le_bytes(array_at(s, at))
}

pub fn word32(s: &[u8], at: usize) -> u32
    requires { at + 4 ≤ length s.now }
    ensures { result ≡ word32 s.now at }
{
    u32::from_le_bytes(array_at(s, at))
}

pub fn word64(s: &[u8], at: usize) -> u64
    requires { at + 8 ≤ length s.now }
    ensures { result ≡ word64 s.now at }
{
    u64::from_le_bytes(array_at(s, at))
}

// The numbers of two and four bytes from place `at` on, the highest byte first.
pub fn high16(s: &[u8], at: usize) -> u16
    requires { at + 2 ≤ length s.now }
    ensures { result ≡ high16 s.now at }
{
    u16::from_be_bytes(array_at(s, at))
}

pub fn high32(s: &[u8], at: usize) -> u32
    requires { at + 4 ≤ length s.now }
    ensures { result ≡ high32 s.now at }
{
    u32::from_be_bytes(array_at(s, at))
}

// The number of n bytes from place `at` on, the lowest byte first.
pub fn read(s: &[u8], at: usize, n: usize) -> u64
    requires { (n ≤ 8) × (at + n ≤ length s.now) }
    ensures { result ≡ number (byte s.now) at n }
{
    let mut r: u64 = 0;
    for x in s[at..at + n].iter().rev() {
        r = r * 256 + u64::from(*x);
    }
    r
}
