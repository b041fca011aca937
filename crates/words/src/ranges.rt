// Ranges of places.
ghost use Rattle.std.specs.Prelude.{◌≡◌, ◌+◌, ◌^◌, ◌<◌};
ghost use Rattle.words.specs.Lists.{within, overlap};

// Place k is one of the n from lo on.
pub fn within(lo: usize, n: usize, k: usize) -> bool
    ensures { result ≡ within lo n k }
{
    lo <= k && k - lo < n
}

// n places from a on and m places from b on have one in common.
pub fn overlap(a: usize, n: usize, b: usize, m: usize) -> bool
    requires { (a + n < 2 ^ 64) × (b + m < 2 ^ 64) }
    ensures { result ≡ overlap a n b m }
{
    a < b + m && b < a + n
}
