// Bytes compared.
ghost use Rattle.std.specs.Prelude.{◌≡◌};
ghost use Rattle.words.specs.Lists.{same};
ghost use Rattle.words.specs.Writers.{over};

use crate::parts::part;

// Whether two slices hold the same bytes. A loop by hand: with the library's `==` a packet took a fifth longer to read.
pub fn same(a: &[u8], b: &[u8]) -> bool
    ensures { result ≡ same a.now b.now }
{
    if a.len() != b.len() {
        return false;
    }
    let mut i = 0;
    while i < a.len() {
        if a[i] != b[i] {
            return false;
        }
        i += 1;
    }
    true
}

// Whether a slice holds these bytes, and behind them what `old` held there.
pub fn is_over(out: &[u8], bytes: &[u8], old: &[u8]) -> bool
    ensures { result ≡ same out.now (over bytes.now old.now) }
{
    let n = bytes.len();
    same(part(out, 0, n), bytes) && same(part(out, n, out.len()), part(old, n, old.len()))
}
