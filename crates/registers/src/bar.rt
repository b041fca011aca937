// Where an access of a BAR falls: the MSI-X table or the pending array.
ghost use Rattle.std.specs.Prelude.{◌≡◌, true, not, ◌&&◌, ◌||◌, ◌+◌, ◌%◌, ◌≤◌, eqb, length};
ghost use Rattle.words.specs.Bytes.{number};
ghost use Rattle.model.specs.Fit.{Fit};
ghost use Rattle.model.specs.World.{zero_function, endpoint_of};
ghost use Rattle.model.specs.Registers.{in_region, in_table, in_pending, bar_byte};
ghost use Rattle.registers.specs.Bounds.{Aligned};

use layout::start::{pending_bytes, table_bytes};
use model::{Region, Shape};

// n bytes in a BAR, of a capability at configuration byte `at`, 0 where there is none.
fn in_region(at: usize, r: Region, n: usize, bar: u8, offset: u32) -> bool
    ensures { result ≡ (not (eqb at 0) && in_region r n bar offset) }
{
    at != 0 && bar as usize == r.bar && words::ranges::within(r.at, n, offset as usize)
}

pub fn in_table(s: Shape, bar: u8, offset: u32) -> bool
    requires { s.msix.vectors ≤ 2048 }
    ensures { result ≡ in_table s bar offset }
{
    in_region(s.msix.at, s.msix.table, table_bytes(s), bar, offset)
}

pub fn in_pending(s: Shape, bar: u8, offset: u32) -> bool
    requires { s.msix.vectors ≤ 2048 }
    ensures { result ≡ in_pending s bar offset }
{
    in_region(s.msix.at, s.msix.pending, pending_bytes(s), bar, offset)
}

// The number of n bytes from an offset on, which lie inside one of the two.
pub fn bar_value(s: Shape, table: &[u8], pending: &[u8], bar: u8, offset: u32, n: usize) -> u64
    requires { Fit s (length table.now) (length pending.now) × Aligned s × (offset % 8 + n ≤ 8) × ((in_table s bar offset || in_pending s bar offset) ≡ true) }
    ensures { result ≡ number (bar_byte s (endpoint_of zero_function table.now pending.now) bar) offset n }
{
    let at = offset as usize;
    if in_table(s, bar, offset) {
        return words::get::read(table, at - s.msix.table.at, n);
    }
    words::get::read(pending, at - s.msix.pending.at, n)
}
