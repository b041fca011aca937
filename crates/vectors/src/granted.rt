// The vectors that MSI is granted.
ghost use Rattle.std.specs.Prelude.{◌≡◌, List, ℕ, ◌<◌, ◌≤◌, min};
ghost use Rattle.model.specs.Vectors.{enable_field, granted};
ghost use Rattle.model.specs.Fit.{FitShape};
ghost use Rattle.vectors.specs.Given.{regs};

use model::Shape;

// The smaller of Enable and Capable.
fn granted_log(c: &[u8; 256], s: Shape) -> usize
    requires { FitShape s }
    ensures { ((t : List ℕ) → result ≡ min (enable_field s (regs c.now t)) s.msi.capable) × (result ≤ 5) }
{
    let at = s.msi.at + 2;
    let enable = (c[at] / 16 % 8) as usize;
    let capable = s.msi.capable;
    enable.min(capable)
}

// 1, 2, 4, 8, 16 or 32.
pub fn granted(c: &[u8; 256], s: Shape) -> u32
    requires { FitShape s }
    ensures { ((t : List ℕ) → result ≡ granted s (regs c.now t)) × (0 < result) × (result ≤ 32) }
{
    1 << granted_log(c, s)
}
