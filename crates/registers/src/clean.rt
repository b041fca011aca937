// Bits that are stored as 0 are 0.
ghost use Rattle.std.specs.Prelude.{◌≡◌};
ghost use Rattle.model.specs.Shape.{form_of};
ghost use Rattle.model.specs.Registers.{stored_zero};
ghost use Rattle.model.specs.Sound.{zero_bits};
ghost use Rattle.registers.specs.Bounds.{MsiBounds};

use crate::masks::mask_bits;
use model::{Form, Shape};
use words::get::word32;

// Status bit 3, and of MSI address bits 1:0, the masks at or above 2^Capable and the Pending register.
pub fn config_clean(c: &[u8; 256], s: Shape, f: Form) -> bool
    requires { MsiBounds s × (f ≡ form_of s) }
    ensures { result ≡ zero_bits (stored_zero s) c.now }
{
    if c[6] & 0x08 != 0 {
        return false;
    }
    let at = s.msi.at;
    if at == 0 {
        return true;
    }
    if c[at + 4] & 0x03 != 0 {
        return false;
    }
    if !s.msi.masks {
        return true;
    }
    let mask = word32(c, at + f.mask) & !mask_bits(s);
    let pending = word32(c, at + f.pending);
    (mask | pending) == 0
}
