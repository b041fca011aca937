// Accesses to the configuration.
ghost use Rattle.std.specs.Prelude.{◌≡◌, length, ◌+◌, ◌*◌, ◌≤◌};
ghost use Rattle.words.specs.Bits.{of_bool};
ghost use Rattle.words.specs.Bytes.{bytes_of, number};
ghost use Rattle.model.specs.Shape.{form_of};
ghost use Rattle.model.specs.Registers.{writable, written};
ghost use Rattle.registers.specs.Shown.{byte_shown, config_shown, Readable};

use crate::masks::Formed;
use crate::write::write;
use model::{Form, Shape};

// The n low bytes of a value are written at place `at`. What is not writable stays.
pub fn config_written(c: [u8; 256], s: Shape, f: Form, at: usize, n: usize, value: u32) -> [u8; 256]
    requires { (at + n ≤ 256) × (s.msi.capable ≤ 5) × (f ≡ form_of s) }
    ensures { result ≡ written (writable s) c at (bytes_of n value) }
{
    let formed = Formed { shape: s, form: f };
    let mut config = c;
    write(&formed, &mut config, at, n, u64::from(value));
    config
}

// Status as it is read: bit 3 is the line.
fn status(b: u8, line: bool) -> u8
    requires { b ≤ 247 }
    ensures { result ≡ b + 8 * of_bool line }
{
    if line { b + 8 } else { b }
}

// Byte i as it is read, stored as b: Status, or a byte of MSI's Pending register, which shows the waiting bits.
fn shown_byte(s: Shape, f: Form, line: bool, waiting: u32, i: usize, b: u8) -> u8
    requires { (s.msi.at + (form_of s).size ≤ 256) × (f ≡ form_of s) × (i ≡ 6 → b ≤ 247) }
    ensures { result ≡ byte_shown s line waiting i b }
{
    if i == 6 {
        return status(b, line);
    }
    if !s.msi.masks || s.msi.at == 0 {
        return b;
    }
    let at = s.msi.at + f.pending;
    if words::ranges::within(at, 4, i) {
        return words::bits::byte_of(waiting, i - at);
    }
    b
}

// The number of n bytes from place `at` on, with this line and these MSI waiting bits.
pub fn config_value(
    c: &[u8; 256],
    line: bool,
    waiting: u32,
    s: Shape,
    f: Form,
    at: usize,
    n: usize,
) -> u32
    requires { Readable c.now s f at n }
    ensures { result ≡ number (config_shown s line waiting c.now) at n }
{
    let mut r: u32 = 0;
    for i in (at..at + n).rev() {
        r = r * 256 + (shown_byte(s, f, line, waiting, i, c[i]) as u32);
    }
    r
}
