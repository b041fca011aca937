// The open vectors of MSI as the bits of a word.
ghost use Rattle.std.specs.Prelude.{◌≡◌, List, ℕ, ◌<◌, length};
ghost use Rattle.words.specs.Bits.{bit};
ghost use Rattle.model.specs.Shape.{form_of};
ghost use Rattle.model.specs.Vectors.{masked, is_open};
ghost use Rattle.model.specs.Fit.{FitShape};
ghost use Rattle.vectors.specs.Given.{regs, InForce};

use crate::granted::granted;
use crate::mode::command_bit;
use model::{Form, Mode, Shape, Vector};

// The mask register, 0 without masks.
fn masks(c: &[u8; 256], s: Shape, f: Form) -> u32
    requires { FitShape s × (f ≡ form_of s) }
    ensures { (t : List ℕ) (v : ℕ) → v < 32 → bit result v ≡ masked Mode.Msi s (regs c.now t) v }
{
    if !s.msi.masks {
        return 0;
    }
    words::get::word32(c, s.msi.at + f.mask)
}

// MSI is in force. Bit v says that vector v is open.
pub fn msi_open(c: &[u8; 256], s: Shape, f: Form) -> u32
    requires { FitShape s × (f ≡ form_of s) × InForce Mode.Msi s c.now }
    ensures { (t : List ℕ) (v : ℕ) → bit result v ≡ is_open Mode.Msi s (regs c.now t) v }
{
    if !command_bit(c, 2) {
        return 0;
    }
    words::bits::below(granted(c, s)) & !masks(c, s, f)
}

// Vector v is open.
pub fn msi_is_open(c: &[u8; 256], s: Shape, f: Form, v: Vector) -> bool
    requires { FitShape s × (f ≡ form_of s) × InForce Mode.Msi s c.now }
    ensures { (t : List ℕ) → result ≡ is_open Mode.Msi s (regs c.now t) v.0 }
{
    let n = v.0 as usize;
    if 32 <= n {
        return false;
    }
    words::bits::word_bit(msi_open(c, s, f), n)
}
