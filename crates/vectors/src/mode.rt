// Control bits, and the mechanism in force.
ghost use Rattle.std.specs.Prelude.{◌≡◌, ◌&&◌, List, ℕ, ◌+◌, ◌/◌, ◌<◌};
ghost use Rattle.words.specs.Bytes.{bit_at};
ghost use Rattle.model.specs.Shape.{msi_present, msix_present};
ghost use Rattle.model.specs.Vectors.{command_bit, msi_control_bit, msix_control_bit, mode_of, same_mode};
ghost use Rattle.model.specs.Release.{is_pin};
ghost use Rattle.model.specs.Fit.{FitShape};
ghost use Rattle.vectors.specs.Given.{regs};

use model::{Mode, Shape};

// Bit k of the register at configuration byte `at`.
fn config_bit(c: &[u8; 256], at: usize, k: usize) -> bool
    requires { (at + k / 8 < 256) × (k < 32) }
    ensures { result ≡ bit_at c.now at k }
{
    words::bits::bit(c[at + k / 8], k % 8)
}

// The bits of three registers stay three functions, since each contract says its definition's word; `config_bit` is the one body.
pub fn command_bit(c: &[u8; 256], k: usize) -> bool
    requires { k < 16 }
    ensures { (t : List ℕ) → result ≡ command_bit (regs c.now t) k }
{
    config_bit(c, 4, k)
}

pub fn msi_control_bit(c: &[u8; 256], s: Shape, k: usize) -> bool
    requires { FitShape s × (k < 16) }
    ensures { (t : List ℕ) → result ≡ msi_control_bit s (regs c.now t) k }
{
    config_bit(c, s.msi.at + 2, k)
}

pub fn msix_control_bit(c: &[u8; 256], s: Shape, k: usize) -> bool
    requires { FitShape s × (k < 16) }
    ensures { (t : List ℕ) → result ≡ msix_control_bit s (regs c.now t) k }
{
    config_bit(c, s.msix.at + 2, k)
}

// MSI-X is present and its bit 15 is set.
fn msix_on(c: &[u8; 256], s: Shape) -> bool
    requires { FitShape s }
    ensures { (t : List ℕ) → result ≡ (msix_present s && msix_control_bit s (regs c.now t) 15) }
{
    if s.msix.at == 0 {
        return false;
    }
    msix_control_bit(c, s, 15)
}

// MSI is present and its bit 0 is set.
fn msi_on(c: &[u8; 256], s: Shape) -> bool
    requires { FitShape s }
    ensures { (t : List ℕ) → result ≡ (msi_present s && msi_control_bit s (regs c.now t) 0) }
{
    if s.msi.at == 0 {
        return false;
    }
    msi_control_bit(c, s, 0)
}

// MSI-X if it is on; else MSI if it is on; else the pin.
pub fn mode(c: &[u8; 256], s: Shape) -> Mode
    requires { FitShape s }
    ensures { (t : List ℕ) → result ≡ mode_of s (regs c.now t) }
{
    if msix_on(c, s) {
        return Mode::Msix;
    }
    if msi_on(c, s) {
        return Mode::Msi;
    }
    Mode::Pin
}

pub fn is_pin(m: Mode) -> bool
    ensures { result ≡ is_pin m }
{
    m == Mode::Pin
}

pub fn is_msix(m: Mode) -> bool
    ensures { result ≡ same_mode Mode.Msix m }
{
    m == Mode::Msix
}
