ghost use Rattle.std.specs.Prelude.{◌≡◌, ℕ, ◌+◌, ◌*◌, ◌≤◌, length};
ghost use Rattle.words.specs.Bytes.{word64};
ghost use Rattle.model.specs.Sound.{is_empty};
ghost use Rattle.release.specs.Owed.{Lent, Released, Unmasked, owed_all, owed_word, entry_packets};

use crate::entry::{unmasked, word_send, word_size};

// The waiting vectors, from byte `at` of the pending array on, whose entries are not masked: a word of 64.
fn open_word(table: &[u8], pending: &[u8], at: usize) -> u64
    requires { Lent table.now pending.now × (at + 8 ≤ length pending.now) }
    ensures { Unmasked table.now (8 * at) (word64 pending.now at) result }
{
    unmasked(table, 8 * at, words::get::word64(pending, at))
}

// The bytes of the messages of the owed vectors.
pub fn msix_size(table: &[u8], pending: &[u8]) -> usize
    requires { Lent table.now pending.now }
    ensures { (requester : ℕ) → result ≡ length (entry_packets requester table.now (owed_all table.now pending.now)) }
{
    let mut n: usize = 0;
    for at in (0..pending.len()).step_by(8) {
        n += word_size(table, 8 * at, open_word(table, pending, at));
    }
    n
}

// No vector is owed.
pub fn none_owed(table: &[u8], pending: &[u8]) -> bool
    requires { Lent table.now pending.now }
    ensures { result ≡ is_empty (owed_all table.now pending.now) }
{
    for at in (0..pending.len()).step_by(8) {
        if open_word(table, pending, at) != 0 {
            return false;
        }
    }
    true
}

// Sends the owed vectors of the word at byte `at` of the pending array, and clears their bits.
fn release_word(
    out: &mut [u8],
    table: &[u8],
    pending: &mut [u8],
    at: usize,
    requester: u16,
) -> usize
    requires { Lent table.now pending.old × (at + 8 ≤ length pending.old)
        × (length (entry_packets requester table.now (owed_word table.now pending.old at)) ≤ length out.old) }
    ensures { Released requester table.now (owed_word table.now pending.old at) pending.old out.old result
        pending.new out.new }
{
    let open = open_word(table, pending, at);
    if open == 0 {
        return 0;
    }
    let left = !open & words::get::word64(pending, at);
    words::put::put_le(&mut pending[at..], 8, left);
    word_send(out, table, 8 * at, open, requester)
}

// Sends the owed vectors, the lowest first, and clears their bits.
pub fn msix_send(out: &mut [u8], table: &[u8], pending: &mut [u8], requester: u16) -> usize
    requires { Lent table.now pending.old × (length (entry_packets requester table.now (owed_all table.now pending.old)) ≤ length out.old) }
    ensures { Released requester table.now (owed_all table.now pending.old) pending.old out.old result
        pending.new out.new }
{
    let mut sent: usize = 0;
    for at in (0..pending.len()).step_by(8) {
        sent += release_word(&mut out[sent..], table, pending, at, requester);
    }
    sent
}
