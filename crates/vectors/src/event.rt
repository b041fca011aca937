// What an event means.
ghost use Rattle.std.specs.Prelude.{◌≡◌, List, ℕ};
ghost use Rattle.model.specs.Vectors.{vector_of};
ghost use Rattle.model.specs.Fit.{FitShape};
ghost use Rattle.vectors.specs.Given.{regs};
ghost use Rattle.vectors.specs.Mapping.{vector_in};

use crate::granted::granted;
use model::{Event, Mode, Shape, Vector};

// Under MSI-X event e means vector e; under MSI, vector e mod granted; under the pin, no vector.
pub fn event_vector(c: &[u8; 256], s: Shape, m: Mode, e: Event) -> Option<Vector>
    requires { FitShape s }
    ensures { (t : List ℕ) → vector_in result ≡ vector_of m s (regs c.now t) e.0 }
{
    let n = e.0;
    match m {
        Mode::Pin => None,
        Mode::Msi => {
            let v = ((n as u32) % granted(c, s)) as u16;
            Some(Vector(v))
        }
        Mode::Msix => Some(Vector(n)),
    }
}
