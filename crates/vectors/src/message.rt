// The message of a vector.
ghost use Rattle.std.specs.Prelude.{◌≡◌, true, List, ℕ, ◌+◌, ◌*◌, ◌/◌, ◌<◌, ◌≤◌, length};
ghost use Rattle.words.specs.Writers.{Wrote};
ghost use Rattle.model.specs.Shape.{form_of, table_bytes};
ghost use Rattle.model.specs.Vectors.{enabled, granted};
ghost use Rattle.model.specs.Packets.{message, message_size, message_of, entry_message, msi_upper, data_extended, msi_data};
ghost use Rattle.model.specs.Fit.{FitShape};
ghost use Rattle.vectors.specs.Given.{regs, Profiled};
ghost use Rattle.vectors.specs.Messages.{msi_base};
ghost use Rattle.vectors.specs.Entries.{message_in};

use crate::entry::entry_of;
use crate::granted::granted;
use crate::mode::msi_control_bit;
use model::{Form, Mode, Profile, Shape, Vector};

// A memory write of one word.
#[derive(Clone, Copy)]
pub struct Message {
    pub upper: u32,
    pub address: u32,
    pub value: u32,
}

// The upper address, 0 in the 32-bit forms.
fn msi_upper(c: &[u8; 256], s: Shape) -> u32
    requires { FitShape s }
    ensures { (t : List ℕ) → result ≡ msi_upper s (regs c.now t) }
{
    if !s.msi.wide {
        return 0;
    }
    words::get::word32(c, s.msi.at + 8)
}

// Control bits 9 and 10 are both set.
fn data_extended(c: &[u8; 256], s: Shape) -> bool
    requires { FitShape s }
    ensures { (t : List ℕ) → result ≡ data_extended s (regs c.now t) }
{
    if !s.msi.extended {
        return false;
    }
    msi_control_bit(c, s, 10)
}

// The data, where the form has it: 16 bits, or all 32.
fn msi_data(c: &[u8; 256], s: Shape, f: Form) -> u32
    requires { FitShape s × (f ≡ form_of s) }
    ensures { (t : List ℕ) → result ≡ msi_data s (regs c.now t) }
{
    let at = s.msi.at + f.message;
    if data_extended(c, s) {
        return words::get::word32(c, at);
    }
    words::get::word16(c, at) as u32
}

// The message of MSI vector 0: the low bits of the data, which a vector replaces, are 0. Each granted vector can be added.
pub fn msi_base(c: &[u8; 256], s: Shape, f: Form) -> Message
    requires { FitShape s × (f ≡ form_of s) }
    ensures { (t : List ℕ) → (result ≡ msi_base s (regs c.now t)) × (result.value + granted s (regs c.now t) ≤ 4294967296) }
{
    let g = granted(c, s);
    let data = msi_data(c, s, f);
    let low = data % g;
    let upper = msi_upper(c, s);
    Message {
        upper,
        address: words::get::word32(c, s.msi.at + 4),
        value: data - low,
    }
}

// Of a vector that is granted.
pub fn msi_message(c: &[u8; 256], s: Shape, f: Form, v: Vector) -> Message
    requires { FitShape s × (f ≡ form_of s) × ((t : List ℕ) → v.0 < granted s (regs c.now t)) }
    ensures { (requester : ℕ) (t : List ℕ) → message requester result.upper result.address result.value ≡ message_of Mode.Msi s requester (regs c.now t) v.0 }
{
    let base = msi_base(c, s, f);
    Message {
        value: base.value + (v.0 as u32),
        ..base
    }
}

// From the 16 bytes of an entry of the MSI-X table: address, upper address, data.
pub fn entry_message(entry: &[u8]) -> Message
    requires { length entry.now ≡ 16 }
    ensures { result ≡ message_in entry.now }
{
    Message {
        address: words::get::word32(entry, 0),
        upper: words::get::word32(entry, 4),
        value: words::get::word32(entry, 8),
    }
}

pub fn msix_message(table: &[u8], v: Vector) -> Message
    requires { 16 * v.0 + 16 ≤ length table.now }
    ensures { (s : Shape) (requester : ℕ) (c : List ℕ)
        → message requester result.upper result.address result.value ≡ message_of Mode.Msix s requester (regs c table.now) v.0 }
{
    entry_message(entry_of(table, v.0 as usize))
}

// Of an enabled vector of the mechanism in force.
pub fn vector_message(c: &[u8; 256], k: Profile, table: &[u8], v: Vector) -> Message
    requires { Profiled c.now k × (length table.now ≡ table_bytes k.shape) × (enabled k.mode k.shape (regs c.now table.now) v.0 ≡ true) }
    ensures { (requester : ℕ)
        → message requester result.upper result.address result.value ≡ message_of k.mode k.shape requester (regs c.now table.now) v.0 }
{
    match k.mode {
        Mode::Pin => Message {
            upper: 0,
            address: 0,
            value: 0,
        },
        Mode::Msi => msi_message(c, k.shape, k.form, v),
        Mode::Msix => msix_message(table, v),
    }
}

pub fn put_vector_message(out: &mut [u8], requester: u16, m: Message) -> usize
    requires { message_size m.upper ≤ length out.old }
    ensures { Wrote (message requester m.upper m.address m.value) out.old result out.new }
{
    tlp::put_message(out, requester, m.upper, m.address, m.value)
}

// Writes the message of entry v of an MSI-X table.
pub fn put_entry(out: &mut [u8], table: &[u8], v: usize, requester: u16) -> usize
    requires { (v < length table.now / 16) × (length (entry_message requester table.now v) ≤ length out.old) }
    ensures { Wrote (entry_message requester table.now v) out.old result out.new }
{
    let m = entry_message(entry_of(table, v));
    put_vector_message(out, requester, m)
}
