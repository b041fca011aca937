// Transaction packets as bytes: memory writes of one word, and the wire's messages.
#![tactic(auto)]

pub mod decode; // packets read back
mod write32; // the bytes of a message with a 32-bit address
mod write64; // the bytes of a message with a 64-bit address

ghost use Rattle.std.specs.Prelude.{◌≡◌, cond, ◌+◌, ◌≤◌, length};
ghost use Rattle.words.specs.Writers.{Wrote};
ghost use Rattle.model.specs.Packets.{message, wire_message};
ghost use Rattle.model.specs.Packets.{message_size};

use decode::{Level, Message};

// The bytes of a message.
pub fn message_size(upper: u32) -> usize
    ensures { result ≡ message_size upper }
{
    if upper == 0 { 16 } else { 20 }
}

impl Message {
    // How many bytes it has.
    pub fn len(self) -> usize
        ensures { result ≡ message_size self.upper }
    {
        message_size(self.upper)
    }

    // Writes it: a memory write of one word.
    pub fn put(self, out: &mut [u8]) -> usize
        requires { message_size self.upper ≤ length out.old }
        ensures { Wrote (message self.requester self.upper self.address self.value) out.old result out.new }
    {
        if self.upper == 0 {
            words::put::put_slice(out, &write32::bytes(self))
        } else {
            words::put::put_slice(out, &write64::bytes(self))
        }
    }
}

// Writes a message with these fields.
pub fn put_message(out: &mut [u8], requester: u16, upper: u32, address: u32, value: u32) -> usize
    requires { message_size upper ≤ length out.old }
    ensures { Wrote (message requester upper address value) out.old result out.new }
{
    let message = Message {
        requester,
        upper,
        address,
        value,
    };
    message.put(out)
}

impl Level {
    // The message code of Assert_INTx and Deassert_INTx.
    fn code(self) -> u8
        requires { self.pin ≤ 4 }
        ensures { result ≡ cond self.active 0x1f 0x23 + self.pin }
    {
        if self.active {
            0x1f + self.pin
        } else {
            0x23 + self.pin
        }
    }

    // Writes it: the wire's message.
    pub fn put(self, out: &mut [u8]) -> usize
        requires { (self.pin ≤ 4) × (16 ≤ length out.old) }
        ensures { Wrote (wire_message self.requester self.pin self.active) out.old result out.new }
    {
        let [r1, r0] = self.requester.to_be_bytes();
        let packet = [
            0x34,
            0,
            0,
            0,
            r1,
            r0,
            0,
            self.code(),
            0,
            0,
            0,
            0,
            0,
            0,
            0,
            0,
        ];
        words::put::put_slice(out, &packet)
    }
}

// Writes the wire's message with this pin and level.
pub fn put_wire(out: &mut [u8], requester: u16, pin: u8, active: bool) -> usize
    requires { (pin ≤ 4) × (16 ≤ length out.old) }
    ensures { Wrote (wire_message requester pin active) out.old result out.new }
{
    let level = Level {
        requester,
        pin,
        active,
    };
    level.put(out)
}
