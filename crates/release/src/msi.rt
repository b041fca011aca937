ghost use Rattle.std.specs.Prelude.{◌≡◌, true, ℕ, ◌+◌, ◌<◌, ◌≤◌, length};
ghost use Rattle.words.specs.Bits.{bit};
ghost use Rattle.words.specs.Writers.{Wrote};
ghost use Rattle.release.specs.Owed.{msi_packets};

use crate::bits::SetBits;
use vectors::message::Message;

// The bytes of the messages of the vectors whose bits are set in `owed`.
pub fn msi_size(owed: u32, upper: u32) -> usize
    ensures { (requester address base : ℕ) → result ≡ length (msi_packets requester upper address base owed) }
{
    (u32::count_ones(owed) as usize) * tlp::message_size(upper)
}

// Writes one message for each vector whose bit is set in `owed`, the lowest first: the message of vector 0 with v added to its data,
// which stays a word.
pub fn msi_send(out: &mut [u8], requester: u16, base: Message, owed: u32) -> usize
    requires { ((v : ℕ) → bit owed v ≡ true → base.value + v < 4294967296)
        × (length (msi_packets requester base.upper base.address base.value owed) ≤ length out.old) }
    ensures { Wrote (msi_packets requester base.upper base.address base.value owed) out.old result out.new }
{
    let mut at: usize = 0;
    for v in SetBits(owed as u64) {
        let message = Message {
            value: base.value + v,
            ..base
        };
        at += vectors::message::put_vector_message(&mut out[at..], requester, message);
    }
    at
}
