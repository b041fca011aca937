// The set bits of a word.
ghost use Rattle.std.specs.Iterator.{YieldsFirst, item_count};
ghost use Rattle.release.specs.Owed.{set_bits};

// Their numbers, the lowest first.
#[derive(Clone, Copy)]
pub struct SetBits(pub u64);

impl Iterator for SetBits {
    type Item = u32;

    ghost next_gives = { YieldsFirst (λ s. set_bits 64 s.0) };

    ghost remaining = { item_count (λ s. set_bits 64 s.0) };

    fn next(&mut self) -> Option<u32> {
        if self.0 == 0 {
            return None;
        }
        let v = words::bits::lowest(self.0);
        self.0 = self.0 & (self.0 - 1);
        Some(v)
    }
}
