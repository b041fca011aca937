// One entry of the MSI-X table and its vector.
ghost use Rattle.std.specs.Prelude.{◌≡◌, ◌&&◌, List, ℕ, ◌+◌, ◌*◌, ◌/◌, ◌%◌, ◌<◌, ◌≤◌, length};
ghost use Rattle.words.specs.Bytes.{bytes_of};
ghost use Rattle.model.specs.World.{Endpoint, with_waiting};
ghost use Rattle.model.specs.Registers.{entry_writable, written};
ghost use Rattle.model.specs.Vectors.{is_open, waits};
ghost use Rattle.vectors.specs.Given.{regs, Profiled};
ghost use Rattle.vectors.specs.Entries.{IsEntry};

use model::{Mode, Profile, Vector};
use registers::table::table_written;
use vectors::entry::{entry_masked, entry_of};
use vectors::mode::is_msix;
use vectors::msix::msix_enabled;
use vectors::waiting::waits;

// The entry at place `at` of the table, as it is after a write there of the n low bytes of a value. The table stays.
pub fn entry_after(table: &[u8], at: usize, n: usize, value: u64) -> [u8; 16]
    requires { (at % 16 + n ≤ 16) × (16 * (at / 16) + 16 ≤ length table.now) }
    ensures { IsEntry result (written entry_writable table.now at (bytes_of n value)) (at / 16) }
{
    let mut entry = [0u8; 16];
    words::put::put_slice(&mut entry, entry_of(table, at / 16));
    table_written(&mut entry, at % 16, n, value);
    entry
}

// Vector v, whose table entry is given, is open and waits. The mechanism in force is the one of the profile.
pub fn is_owed(config: &[u8; 256], k: Profile, entry: &[u8], pending: &[u8], v: Vector) -> bool
    requires { Profiled config.now k × (v.0 < k.shape.msix.vectors) × (length entry.now ≡ 16) }
    ensures { (u : Endpoint) (t : List ℕ) → IsEntry entry.now t v.0
        → result ≡ (is_open Mode.Msix k.shape (regs config.now t) v.0 && waits Mode.Msix (with_waiting u 0 pending.now) v.0) }
{
    let mode = k.mode;
    if !is_msix(mode) {
        return false;
    }
    if !waits(Mode::Msix, 0, pending, v) {
        return false;
    }
    if entry_masked(entry) {
        return false;
    }
    msix_enabled(config, k.shape)
}
