// Of each configuration byte the bits that are writable, and those that are stored as 0.
ghost use Rattle.std.specs.Prelude.{◌≡◌, cond, ◌-◌, ◌^◌, ◌≤◌, ◌<◌, eqb};
ghost use Rattle.words.specs.Bytes.{byte};
ghost use Rattle.model.specs.Shape.{form_of};
ghost use Rattle.model.specs.Registers.{header_writable, data_bytes, msi_writable, msi_zero, mask_bytes, writable, stored_zero};

use crate::write::Masks;
use model::{Form, Shape};

// The shape of a card with the form of its MSI, whose Capable is one that a start accepts.
#[derive(Clone, Copy)]
pub struct Formed {
    pub shape: Shape,
    pub form: Form,
    ghost capable: { shape.msi.capable ≤ 5 },
    ghost is_form: { form ≡ form_of shape },
}

// Command bits 1, 2 and 10, and Interrupt Line.
fn header_writable(i: usize) -> u8
    ensures { result ≡ header_writable i }
{
    match i {
        4 => 0x06,
        5 => 0x04,
        0x3c => 0xff,
        _ => 0,
    }
}

// The bytes of MSI's data: with control bit 9 the upper half is one of its registers.
pub fn data_bytes(s: Shape) -> usize
    ensures { (result ≡ data_bytes s) × (result ≤ 4) }
{
    if s.msi.extended { 4 } else { 2 }
}

// Byte k of MSI's first four: control bits 0 and 6:4, and with bit 9 bit 10.
fn control_writable(extended: bool, k: usize) -> u8
    ensures { result ≡ cond (eqb k 2) 0x71 (cond (eqb k 3) (cond extended 0x04 0) 0) }
{
    match k {
        2 => 0x71,
        3 if extended => 0x04,
        _ => 0,
    }
}

// The MSI mask bits below 2^Capable.
pub fn mask_bits(s: Shape) -> u32
    requires { s.msi.capable ≤ 5 }
    ensures { result ≡ 2 ^ (2 ^ s.msi.capable) - 1 }
{
    words::bits::below(1u32 << s.msi.capable)
}

impl Formed {
    // Byte k of the mask bits.
    fn mask_byte(&self, k: usize) -> u8
        requires { k < 4 }
        ensures { result ≡ byte (mask_bytes self.now.shape) k }
    {
        words::bits::byte_of(mask_bits(self.shape), k)
    }

    // Byte k of the MSI capability: control, then address and data without a gap, then the masks. Each row is another kind of test, so this
    // and the three functions below are no plainer as a match.
    fn msi_writable(&self, k: usize) -> u8
        ensures { result ≡ msi_writable self.now.shape k }
    {
        if k < 4 {
            return control_writable(self.shape.msi.extended, k);
        }
        if k == 4 {
            return 0xfc;
        }
        if k - data_bytes(self.shape) < self.form.message {
            return 0xff;
        }
        if words::ranges::within(self.form.mask, 4, k) {
            return self.mask_byte(k - self.form.mask);
        }
        0
    }

    // The writable bits of byte i: header, MSI, MSI-X control bits 14 and 15.
    pub fn writable(&self, i: usize) -> u8
        ensures { result ≡ writable self.now.shape i }
    {
        if i < 64 {
            return header_writable(i);
        }
        if words::ranges::within(self.shape.msi.at, self.form.size, i) {
            return self.msi_writable(i - self.shape.msi.at);
        }
        if words::ranges::within(self.shape.msix.at, 12, i) {
            return if i - self.shape.msix.at == 3 { 0xc0 } else { 0 };
        }
        0
    }

    // Byte k of the MSI capability: address bits 1:0, masks at or above 2^Capable, the Pending register.
    fn msi_zero(&self, k: usize) -> u8
        ensures { result ≡ msi_zero self.now.shape k }
    {
        if k < 8 {
            return if k == 4 { 0x03 } else { 0 };
        }
        if words::ranges::within(self.form.mask, 4, k) {
            return !self.mask_byte(k - self.form.mask);
        }
        if words::ranges::within(self.form.pending, 4, k) {
            0xff
        } else {
            0
        }
    }

    // The bits of byte i that are stored as 0: Status bit 3, and MSI's.
    pub fn stored_zero(&self, i: usize) -> u8
        ensures { result ≡ stored_zero self.now.shape i }
    {
        if i < 64 {
            return if i == 6 { 0x08 } else { 0 };
        }
        if words::ranges::within(self.shape.msi.at, self.form.size, i) {
            return self.msi_zero(i - self.shape.msi.at);
        }
        0
    }
}

impl Masks for Formed {
    ghost use Rattle.model.specs.Registers.{writable};

    ghost masks = { λ f. writable f.shape };

    fn mask(&self, i: usize) -> u8 {
        self.writable(i)
    }
}
