// The pin.
ghost use Rattle.std.specs.Prelude.{◌≡◌, List, ℕ};
ghost use Rattle.model.specs.Release.{pin_number};
ghost use Rattle.vectors.specs.Given.{regs};

// Its number, 0 for none.
pub fn pin_number(c: &[u8; 256]) -> u8
    ensures { (t : List ℕ) → result ≡ pin_number (regs c.now t) }
{
    c[0x3d]
}
