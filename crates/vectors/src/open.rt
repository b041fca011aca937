// A vector of any mechanism.
ghost use Rattle.std.specs.Prelude.{◌≡◌, length};
ghost use Rattle.model.specs.Shape.{table_bytes};
ghost use Rattle.model.specs.Vectors.{is_open};
ghost use Rattle.vectors.specs.Given.{regs, Profiled};

use crate::msi::msi_is_open;
use crate::msix::msix_is_open;
use model::{Mode, Profile, Vector};

// Vector v of the mechanism in force is open.
pub fn is_open(c: &[u8; 256], k: Profile, table: &[u8], v: Vector) -> bool
    requires { Profiled c.now k × (length table.now ≡ table_bytes k.shape) }
    ensures { result ≡ is_open k.mode k.shape (regs c.now table.now) v.0 }
{
    match k.mode {
        Mode::Pin => false,
        Mode::Msi => msi_is_open(c, k.shape, k.form, v),
        Mode::Msix => msix_is_open(c, k.shape, table, v),
    }
}
