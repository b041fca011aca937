ghost use Rattle.std.specs.Prelude.{◌≡◌, ◌<◌};
ghost use Rattle.model.specs.Packets.{message};

use crate::decode::Message;

// Another upper address: four header words. Beside write32, since an array has one length: one function for both would write word by word, through parts of the output.
pub fn bytes(m: Message) -> [u8; 20]
    requires { 0 < m.upper }
    ensures { result ≡ message m.requester m.upper m.address m.value }
{
    let [r1, r0] = m.requester.to_be_bytes();
    let [u3, u2, u1, u0] = m.upper.to_be_bytes();
    let [a3, a2, a1, a0] = m.address.to_be_bytes();
    let [v0, v1, v2, v3] = m.value.to_le_bytes();
    [
        0x60, 0, 0, 1, r1, r0, 0, 0x0f, u3, u2, u1, u0, a3, a2, a1, a0, v0, v1, v2, v3,
    ]
}
