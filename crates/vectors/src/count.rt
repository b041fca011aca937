// The vectors that a mechanism has, granted or not.
ghost use Rattle.std.specs.Prelude.{◌≡◌, ◌≤◌};
ghost use Rattle.model.specs.Shape.{msi_vectors};
ghost use Rattle.model.specs.Vectors.{vector_count};

use model::{Mode, Shape};

// 2^Capable.
fn msi_vectors(s: Shape) -> usize
    requires { s.msi.capable ≤ 5 }
    ensures { result ≡ msi_vectors s }
{
    if s.msi.at == 0 {
        return 0;
    }
    1 << s.msi.capable
}

// N, or 2^Capable. The pin has none.
pub fn vector_count(m: Mode, s: Shape) -> usize
    requires { s.msi.capable ≤ 5 }
    ensures { result ≡ vector_count m s }
{
    match m {
        Mode::Pin => 0,
        Mode::Msi => msi_vectors(s),
        Mode::Msix => s.msix.vectors,
    }
}
