// A number wider than its type is taken as the largest one of the type, which the rule of that number refuses as well.
// One function for each type: a generic one would need a trait for the largest number of a type, and be longer than the three.
ghost use Rattle.std.specs.Prelude.{◌≡◌, min};

pub fn narrow8(n: u64) -> u8
    ensures { result ≡ min n 255 }
{
    u8::try_from(n).unwrap_or(u8::MAX)
}

pub fn narrow16(n: u64) -> u16
    ensures { result ≡ min n 65535 }
{
    u16::try_from(n).unwrap_or(u16::MAX)
}

pub fn narrow32(n: u64) -> u32
    ensures { result ≡ min n 4294967295 }
{
    u32::try_from(n).unwrap_or(u32::MAX)
}
