// Where the MSI and MSI-X structures stand in the configuration.
ghost use Rattle.std.specs.Prelude.{◌≡◌, false, ◌+◌, ◌<◌};
ghost use Rattle.words.specs.Lists.{overlap};
ghost use Rattle.model.specs.Capabilities.{capabilities, listed, broken};
ghost use Rattle.model.specs.Shape.{form_of};
ghost use Rattle.model.specs.Start.{misplaced, bad_structures};
ghost use Rattle.layout.specs.Checks.{apart, bad_msi, bad_msix, bad_pair};
ghost use Rattle.layout.specs.Shapes.{Bounded};

use crate::capability::Places;
use model::{Form, Shape};

// The header at o is the structure's own, or stands outside of its n bytes at a.
fn apart(o: usize, a: usize, n: usize) -> bool
    requires { (o < 256) × (a < 256) × (n < 256) }
    ensures { result ≡ apart a n o }
{
    o == a || !words::ranges::overlap(o, 2, a, n)
}

// A structure of n bytes at a runs past byte FFh, or has another listed header inside it.
fn misplaced(c: &[u8; 256], a: usize, n: usize) -> bool
    requires { (broken (capabilities c.now) ≡ false) × (a < 256) × (n < 256) }
    ensures { result ≡ misplaced (listed (capabilities c.now)) a n }
{
    if 256 < a + n {
        return true;
    }
    for at in Places::of(c) {
        if !apart(at, a, n) {
            return true;
        }
    }
    false
}

fn bad_msi(c: &[u8; 256], s: Shape, n: usize) -> bool
    requires { (broken (capabilities c.now) ≡ false) × Bounded s × (n < 256) }
    ensures { result ≡ bad_msi (listed (capabilities c.now)) s n }
{
    s.msi.at != 0 && (5 < s.msi.capable || misplaced(c, s.msi.at, n))
}

fn bad_msix(c: &[u8; 256], s: Shape) -> bool
    requires { (broken (capabilities c.now) ≡ false) × Bounded s }
    ensures { result ≡ bad_msix (listed (capabilities c.now)) s }
{
    s.msix.at != 0 && misplaced(c, s.msix.at, 12)
}

fn bad_pair(s: Shape, n: usize) -> bool
    requires { Bounded s × (n < 256) }
    ensures { result ≡ bad_pair s n }
{
    s.msi.at != 0 && s.msix.at != 0 && words::ranges::overlap(s.msi.at, n, s.msix.at, 12)
}

// Multiple Message Capable above 5; or a structure misplaced, or overlapping the other one.
pub fn bad_structures(c: &[u8; 256], s: Shape, f: Form) -> bool
    requires { (broken (capabilities c.now) ≡ false) × Bounded s × (f ≡ form_of s) }
    ensures { result ≡ bad_structures (listed (capabilities c.now)) s }
{
    bad_msi(c, s, f.size) || bad_msix(c, s) || bad_pair(s, f.size)
}
