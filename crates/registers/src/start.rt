// The configuration of a started card.
ghost use Rattle.std.specs.Prelude.{◌≡◌, cond, ℕ, ◌+◌, ◌≤◌, min, max};
ghost use Rattle.words.specs.Bytes.{byte};
ghost use Rattle.model.specs.Shape.{form_of};
ghost use Rattle.model.specs.Registers.{fixed_byte, started_config};
ghost use Rattle.registers.specs.Parts.{part_fixed, part_zero};

use crate::masks::{Formed, data_bytes};
use model::{Form, Shape};

// Where n bytes from `at` on end, at most at 256.
fn part_end(at: usize, n: usize) -> usize
    ensures { result ≡ min (at + n) 256 }
{
    at.saturating_add(n).min(256)
}

// The bytes from place lo to hi - 1, if any, are 0.
fn zero_part(config: &mut [u8; 256], lo: usize, hi: usize)
    requires { hi ≤ 256 }
    ensures { (k : ℕ) → byte config.new k ≡ part_zero lo hi config.old k }
{
    if lo < hi {
        config[lo..hi].fill(0);
    }
}

// Where the bytes of MSI's control register end that have writable bits: byte 3 has one with control bit 9.
fn control_end(extended: bool) -> usize
    ensures { (result ≡ cond extended 4 3) × (result ≤ 4) }
{
    if extended { 4 } else { 3 }
}

impl Formed {
    // Byte i with its writable bits 0, and those that are stored as 0.
    fn fixed_byte(&self, i: usize, b: u8) -> u8
        ensures { result ≡ fixed_byte self.now.shape i b }
    {
        !self.writable(i) & (!self.stored_zero(i) & b)
    }

    // The same for the bytes from place lo to hi - 1. A loop over places, since the mask goes by the place.
    fn fix_part(&self, config: &mut [u8; 256], lo: usize, hi: usize)
        requires { hi ≤ 256 }
        ensures { (k : ℕ) → byte config.new k ≡ part_fixed self.now.shape lo hi config.old k }
    {
        for i in lo..hi {
            config[i] = self.fixed_byte(i, config[i]);
        }
    }

    // The same for Command and the low byte of Status, one by one: the compiler then knows their bits, which a loop over them hides.
    fn fix_command(&self, config: &mut [u8; 256])
        ensures { (k : ℕ) → byte config.new k ≡ part_fixed self.now.shape 4 7 config.old k }
    {
        config[4] = self.fixed_byte(4, config[4]);
        config[5] = self.fixed_byte(5, config[5]);
        config[6] = self.fixed_byte(6, config[6]);
    }

    // The same for Interrupt Line.
    fn fix_line(&self, config: &mut [u8; 256])
        ensures { (k : ℕ) → byte config.new k ≡ part_fixed self.now.shape 0x3c 0x3d config.old k }
    {
        config[0x3c] = self.fixed_byte(0x3c, config[0x3c]);
    }

    // MSI's bytes, where it stands from 40h on: bits of the control register, then address and data, then masks and Pending, if any.
    fn clear_msi(&self, config: &mut [u8; 256])
        requires { 64 ≤ self.now.shape.msi.at }
        ensures { (k : ℕ) → byte config.new k ≡ part_fixed self.now.shape self.now.shape.msi.at (min (self.now.shape.msi.at + self.now.form.size) 256) config.old k }
    {
        let msi = self.shape.msi;
        let message = self.form.message;
        self.fix_part(
            config,
            part_end(msi.at, 2),
            part_end(msi.at, control_end(msi.extended)),
        );
        zero_part(
            config,
            part_end(msi.at, 4),
            part_end(msi.at, message + data_bytes(self.shape)),
        );
        zero_part(
            config,
            part_end(msi.at, message + 4),
            part_end(msi.at, self.form.size),
        );
    }

    // Those of MSI's bytes that are not in the header. There are none without MSI, which then stands at 0.
    fn fix_msi(&self, config: &mut [u8; 256])
        ensures { (k : ℕ) → byte config.new k ≡ part_fixed self.now.shape (max 64 self.now.shape.msi.at) (min (self.now.shape.msi.at + self.now.form.size) 256) config.old k }
    {
        if self.shape.msi.at < 64 {
            self.fix_part(config, 64, part_end(self.shape.msi.at, self.form.size));
        } else {
            self.clear_msi(config);
        }
    }
}

// The configuration in an array of zeros that is filled byte by byte: document 01 names this form by place.
fn filled(c: &[u8; 256]) -> [u8; 256]
    ensures { result ≡ c.now }
{
    let mut config = [0; 256];
    for i in 0..256usize {
        config[i] = c[i];
    }
    config
}

// The parts that have writable bits or bits that are stored as 0: Command and Status, Interrupt Line, MSI, MSI-X control.
pub fn started_config(c: &[u8; 256], s: Shape, f: Form) -> [u8; 256]
    requires { (s.msi.capable ≤ 5) × (f ≡ form_of s) }
    ensures { result ≡ started_config s c.now }
{
    let formed = Formed { shape: s, form: f };
    let mut config = filled(c);
    formed.fix_command(&mut config);
    formed.fix_line(&mut config);
    formed.fix_msi(&mut config);
    formed.fix_part(&mut config, part_end(s.msix.at, 3), part_end(s.msix.at, 4));
    config
}
