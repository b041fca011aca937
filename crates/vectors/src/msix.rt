// The open vectors of MSI-X.
ghost use Rattle.std.specs.Prelude.{◌≡◌, List, ℕ, length};
ghost use Rattle.model.specs.Shape.{table_bytes};
ghost use Rattle.model.specs.Vectors.{is_open};
ghost use Rattle.model.specs.Fit.{FitShape};
ghost use Rattle.vectors.specs.Given.{regs, InForce};
ghost use Rattle.vectors.specs.Enabled.{msix_enabled};

use crate::entry::{entry_masked, entry_of};
use crate::mode::{command_bit, msix_control_bit};
use model::{Mode, Shape, Vector};

// MSI-X is in force. Whether it can send: Function Mask 0, Command bit 2 set.
pub fn msix_enabled(c: &[u8; 256], s: Shape) -> bool
    requires { FitShape s × InForce Mode.Msix s c.now }
    ensures { (t : List ℕ) → result ≡ msix_enabled s (regs c.now t) }
{
    if msix_control_bit(c, s, 14) {
        return false;
    }
    command_bit(c, 2)
}

// Vector v is open.
pub fn msix_is_open(c: &[u8; 256], s: Shape, table: &[u8], v: Vector) -> bool
    requires { FitShape s × (length table.now ≡ table_bytes s) × InForce Mode.Msix s c.now }
    ensures { result ≡ is_open Mode.Msix s (regs c.now table.now) v.0 }
{
    let n = v.0 as usize;
    if s.msix.vectors <= n {
        return false;
    }
    if entry_masked(entry_of(table, n)) {
        return false;
    }
    msix_enabled(c, s)
}
