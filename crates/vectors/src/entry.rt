// One entry of the MSI-X table: its bytes, its vector, its mask bit.
ghost use Rattle.std.specs.Prelude.{◌≡◌, ◌+◌, ◌*◌, ◌/◌, ◌<◌, ◌≤◌, length};
ghost use Rattle.vectors.specs.Entries.{IsEntry, mask_in};

use model::Vector;

// The 16 bytes of entry v.
pub fn entry_of(table: &[u8], v: usize) -> &[u8]
    requires { 16 * v + 16 ≤ length table.now }
    ensures { (length result.now ≡ 16) × IsEntry result.now table.now v }
{
    let at = 16 * v;
    &table[at..at + 16]
}

// The vector of the entry at place `at` of the table.
pub fn entry_vector(at: usize) -> Vector
    requires { at / 16 < 65536 }
    ensures { result.0 ≡ at / 16 }
{
    Vector((at / 16) as u16)
}

// The mask bit of an entry.
pub fn entry_masked(entry: &[u8]) -> bool
    requires { length entry.now ≡ 16 }
    ensures { result ≡ mask_in entry.now }
{
    entry[12] % 2 == 1
}
