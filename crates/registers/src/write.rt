// A write of registers, byte by byte through masks.
ghost use Rattle.std.specs.Prelude.{◌≡◌, ℕ, ◌+◌, ◌≤◌, length};
ghost use Rattle.words.specs.Bytes.{bytes_of};
ghost use Rattle.model.specs.Registers.{written};

// Registers, each byte with the mask of its writable bits.
pub trait Masks {
    ghost masks: { Self → ℕ → ℕ };

    fn mask(&self, i: usize) -> u8
        ensures { result ≡ masks self.now i };
}

// The n low bytes of a value are written at place `at`. What is not writable stays.
pub fn write<M: Masks>(registers: &M, bytes: &mut [u8], at: usize, n: usize, value: u64)
    requires { at + n ≤ length bytes.old }
    ensures { bytes.new ≡ written (M.masks registers.now) bytes.old at (bytes_of n value) }
{
    let mut left = value;
    for k in at..at + n {
        bytes[k] = words::bits::merge(registers.mask(k), bytes[k], (left % 256) as u8);
        left /= 256;
    }
}
