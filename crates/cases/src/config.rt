// The 256 configuration bytes that a case starts with.
ghost use Rattle.std.specs.Prelude.{◌≡◌};
ghost use Rattle.cases.specs.Steps.{config_at};

use words::parts::{byte_at, part};

// The configuration at a place of the table's bytes.
pub fn config_at(bytes: &[u8], place: u16) -> [u8; 256]
    ensures { result ≡ config_at bytes.now place }
{
    let at = place as usize;
    let mut config = [0; 256];
    config[0x06] = byte_at(bytes, at);
    config[0x34] = byte_at(bytes, at + 1);
    config[0x3d] = byte_at(bytes, at + 2);
    let capability = part(bytes, at + 3, 12);
    words::put::put_slice(&mut config[0x40..], capability);
    config
}
