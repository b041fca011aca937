ghost use Rattle.std.specs.Prelude.{◌≡◌, ℕ, ◌≤◌, length};
ghost use Rattle.words.specs.Writers.{Wrote};
ghost use Rattle.release.specs.Owed.{Backed, Unmasked, word_packets};

use crate::bits::SetBits;

// Of the set bits of a word of 64 vectors, from vector `base` on, those whose entry is not masked.
pub fn unmasked(table: &[u8], base: usize, w: u64) -> u64
    requires { Backed table.now base w }
    ensures { Unmasked table.now base w result }
{
    let mut r = w;
    for v in SetBits(w) {
        let masked = (table[16 * (base + (v as usize)) + 12] % 2) as u64;
        r = !(masked << v) & r;
    }
    r
}

// The bytes of the messages of the vectors of a word.
pub fn word_size(table: &[u8], base: usize, w: u64) -> usize
    requires { Backed table.now base w }
    ensures { (requester : ℕ) → result ≡ length (word_packets requester table.now base w) }
{
    let mut n: usize = 0;
    for v in SetBits(w) {
        n += tlp::message_size(words::get::word32(table, 16 * (base + (v as usize)) + 4));
    }
    n
}

// Writes one message for each vector of a word, the lowest first.
pub fn word_send(out: &mut [u8], table: &[u8], base: usize, w: u64, requester: u16) -> usize
    requires { Backed table.now base w × (length (word_packets requester table.now base w) ≤ length out.old) }
    ensures { Wrote (word_packets requester table.now base w) out.old result out.new }
{
    let mut at: usize = 0;
    for v in SetBits(w) {
        at += vectors::message::put_entry(&mut out[at..], table, base + (v as usize), requester);
    }
    at
}
