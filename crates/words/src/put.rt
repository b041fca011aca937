ghost use Rattle.std.specs.Prelude.{◌≡◌, ◌≤◌, length, replicate};
ghost use Rattle.words.specs.Bytes.{bytes_of};
ghost use Rattle.words.specs.Writers.{Wrote};

// The n low bytes of a number, the lowest first.
pub fn put_le(out: &mut [u8], n: usize, value: u64) -> usize
    requires { (n ≤ 8) × (n ≤ length out.old) }
    ensures { Wrote (bytes_of n value) out.old result out.new }
{
    let mut left = value;
    for x in out[..n].iter_mut() {
        *x = (left % 256) as u8;
        left = left / 256;
    }
    n
}

// The bytes of another slice. A loop by hand: with `copy_from_slice` a message took a tenth longer through the switch.
pub fn put_slice(out: &mut [u8], src: &[u8]) -> usize
    requires { length src.now ≤ length out.old }
    ensures { Wrote src.now out.old result out.new }
{
    for i in 0..src.len() {
        out[i] = src[i];
    }
    src.len()
}

// Every byte is b.
pub fn fill(out: &mut [u8], b: u8)
    ensures { out.new ≡ replicate (length out.old) b }
{
    out.fill(b);
}
