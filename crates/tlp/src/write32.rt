ghost use Rattle.std.specs.Prelude.{◌≡◌};
ghost use Rattle.model.specs.Packets.{message};

use crate::decode::Message;

// Upper address 0: three header words.
pub fn bytes(m: Message) -> [u8; 16]
    ensures { result ≡ message m.requester 0 m.address m.value }
{
    let [r1, r0] = m.requester.to_be_bytes();
    let [a3, a2, a1, a0] = m.address.to_be_bytes();
    let [v0, v1, v2, v3] = m.value.to_le_bytes();
    [
        0x40, 0, 0, 1, r1, r0, 0, 0x0f, a3, a2, a1, a0, v0, v1, v2, v3,
    ]
}
