// Packets read back: their fields, to be read by a person.
ghost use Rattle.std.specs.Prelude.{◌≤◌, ◌≡◌, length};
ghost use Rattle.tlp.specs.Decoded.{as_message, as_wire, decoded_wire, decoded, first_length};

// A memory write of one word.
#[derive(Clone, Copy)]
pub struct Message {
    pub requester: u16,
    pub upper: u32,
    pub address: u32,
    pub value: u32,
}

// Assert_INTx or Deassert_INTx.
#[derive(Clone, Copy)]
pub struct Level {
    pub requester: u16,
    pub pin: u8,
    pub active: bool,
}

#[derive(Clone, Copy)]
pub enum Packet {
    Message(Message),
    Wire(Level),
}

// The message with these fields, if the bytes are its bytes.
fn as_message(s: &[u8], m: Message) -> Option<Packet>
    ensures { result ≡ as_message s.now m }
{
    if m.upper == 0 {
        return words::compare::same(s, &crate::write32::bytes(m)).then_some(Packet::Message(m));
    }
    words::compare::same(s, &crate::write64::bytes(m)).then_some(Packet::Message(m))
}

// The wire's packet with this pin and level, if the bytes are its bytes.
fn as_wire(s: &[u8], l: Level) -> Option<Packet>
    requires { l.pin ≤ 4 }
    ensures { result ≡ as_wire s.now l }
{
    let mut again = [0u8; 16];
    let n = l.put(&mut again);
    words::compare::same(s, &again[..n]).then_some(Packet::Wire(l))
}

// The fields of a wire's packet: the code is 1Fh + pin, or 23h + pin.
fn decode_wire(s: &[u8]) -> Option<Packet>
    requires { 16 ≤ length s.now }
    ensures { result ≡ decoded_wire s.now }
{
    let requester = words::get::high16(s, 4);
    let (pin, active) = match s[7] {
        code @ 0x20..=0x23 => (code - 0x1f, true),
        code @ 0x24..=0x27 => (code - 0x23, false),
        _ => return None,
    };
    as_wire(
        s,
        Level {
            requester,
            pin,
            active,
        },
    )
}

// The packet that the bytes are. Its fields are read off, then compared with the packet that they make.
pub fn decode(s: &[u8]) -> Option<Packet>
    ensures { result ≡ decoded s.now }
{
    if s.len() < 16 {
        return None;
    }
    if s[0] == 0x34 {
        return decode_wire(s);
    }
    let requester = words::get::high16(s, 4);
    let message = if s.len() < 20 {
        Message {
            requester,
            upper: 0,
            address: words::get::high32(s, 8),
            value: words::get::word32(s, 12),
        }
    } else {
        Message {
            requester,
            upper: words::get::high32(s, 8),
            address: words::get::high32(s, 12),
            value: words::get::word32(s, 16),
        }
    };
    as_message(s, message)
}

// How many bytes the first of some packets has: 20 where its first byte is 60h, else 16, and at most all.
pub fn first_length(s: &[u8]) -> usize
    ensures { result ≡ first_length s.now }
{
    let four_words = words::parts::byte_at(s, 0) == 0x60;
    words::parts::clipped(if four_words { 20 } else { 16 }, s)
}
