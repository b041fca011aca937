// The MSI-X table: entries of address, upper address, data and control.
ghost use Rattle.std.specs.Prelude.{◌≡◌, ◌+◌, ◌*◌, ◌≤◌, length};
ghost use Rattle.words.specs.Bytes.{bytes_of};
ghost use Rattle.model.specs.Registers.{entry_writable, entry_zero, written, started_table};
ghost use Rattle.model.specs.Sound.{zero_bits};

use crate::write::{Masks, write};

// The entries of a table.
#[derive(Clone, Copy)]
pub struct Entries;

impl Masks for Entries {
    ghost use Rattle.model.specs.Registers.{entry_writable};

    ghost masks = { λ e. entry_writable };

    fn mask(&self, i: usize) -> u8 {
        match i % 16 {
            0 => 0xfc,
            1..=11 => 0xff,
            12 => 0x01,
            _ => 0,
        }
    }
}

// The n low bytes of a value are written at place `at`. What is not writable stays.
pub fn table_written(table: &mut [u8], at: usize, n: usize, value: u64)
    requires { at + n ≤ length table.old }
    ensures { table.new ≡ written entry_writable table.old at (bytes_of n value) }
{
    write(&Entries, table, at, n, value);
}

// n entries as a start gives them: the mask bits are 1, all else is 0.
pub fn started_table(table: &mut [u8], n: usize)
    requires { length table.old ≡ 16 * n }
    ensures { table.new ≡ started_table n }
{
    words::put::fill(table, 0);
    // By index: of a loop over chunks_exact_mut a proof knows no byte that it wrote.
    for k in 0..n {
        table[16 * k + 12] = 1;
    }
}

// Every bit that reads 0 is 0: of each entry address bits 1:0 and control bits 31:1. The bits of all entries are gathered, and tested once.
pub fn table_clean(table: &[u8], n: usize) -> bool
    requires { length table.now ≡ 16 * n }
    ensures { result ≡ zero_bits entry_zero table.now }
{
    let mut low: u64 = 0;
    let mut high: u64 = 0;
    for k in 0..n {
        low = low | words::get::word64(table, 16 * k);
        high = high | words::get::word64(table, 16 * k + 8);
    }
    ((low & 0x0000000000000003) | (high & 0xfffffffe00000000)) == 0
}
