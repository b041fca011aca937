// Parts of byte slices, clipped to what there is.
ghost use Rattle.std.specs.Prelude.{◌≡◌, ◌+◌, ◌≤◌, length, take, drop};
ghost use Rattle.words.specs.Bytes.{byte, part};
ghost use Rattle.words.specs.Writers.{Clips};

// A number of bytes, and at most all.
pub fn clipped(count: usize, s: &[u8]) -> usize
    ensures { Clips count s.now result }
{
    count.min(s.len())
}

// The bytes from a place on, so many.
pub fn part(s: &[u8], place: usize, size: usize) -> &[u8]
    ensures { result.now ≡ take size (drop place s.now) }
{
    let from = clipped(place, s);
    let rest = &s[from..];
    let n = clipped(size, rest);
    &rest[..n]
}

// The byte at a place, 0 past the end.
pub fn byte_at(s: &[u8], at: usize) -> u8
    ensures { result ≡ byte s.now at }
{
    s.get(at).copied().unwrap_or(0)
}

// The N bytes from a place on.
pub fn array_at<const N: usize>(s: &[u8], at: usize) -> [u8; N]
    requires { at + N ≤ length s.now }
    ensures { result ≡ part at N s.now }
{
    let mut bytes = [0u8; N];
    bytes.copy_from_slice(&s[at..at + N]);
    bytes
}
