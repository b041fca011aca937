// The first of some packets, as numbers.
ghost use Rattle.std.specs.Prelude.{◌≡◌};
ghost use Rattle.capi_query.specs.Fields.{fields, no_packet, message_fields, wire_fields, fields_of, first_fields};

use model::refusal::Refusal;
use tlp::decode::{Level, Message, Packet};

// What is told of a packet: 60 and zeros where there is none. Kind 1 is a message, kind 2 a wire packet; what a kind has no use for is 0.
// Numbers and no enums: they are what C is told (`musgarento_packet`), and the theorem `packet_exact` speaks of them so.
#[derive(Clone, Copy)]
pub struct Fields {
    pub refusal: u8,
    pub count: usize,
    pub kind: u8,
    pub requester: u16,
    pub address: u64,
    pub value: u32,
    pub pin: u8,
    pub level: u8,
}

fn no_packet() -> Fields
    ensures { result ≡ no_packet }
{
    Fields {
        refusal: Refusal::Lengths as u8,
        count: 0,
        kind: 0,
        requester: 0,
        address: 0,
        value: 0,
        pin: 0,
        level: 0,
    }
}

// A message of so many bytes. Document 01 stores bits 1:0 of an address as 0.
fn message_fields(count: usize, m: Message) -> Fields
    ensures { result ≡ message_fields count m }
{
    if m.address % 4 != 0 {
        return no_packet();
    }
    Fields {
        refusal: 0,
        count,
        kind: 1,
        requester: m.requester,
        address: u64::from(m.upper) * 4294967296 + u64::from(m.address),
        value: m.value,
        pin: 0,
        level: 0,
    }
}

fn wire_fields(count: usize, w: Level) -> Fields
    ensures { result ≡ wire_fields count w }
{
    Fields {
        refusal: 0,
        count,
        kind: 2,
        requester: w.requester,
        address: 0,
        value: 0,
        pin: w.pin,
        level: w.active as u8,
    }
}

fn fields_of(count: usize, packet: Option<Packet>) -> Fields
    ensures { result ≡ fields_of count packet }
{
    let Some(found) = packet else {
        return no_packet();
    };
    match found {
        Packet::Message(m) => message_fields(count, m),
        Packet::Wire(w) => wire_fields(count, w),
    }
}

fn first_fields(packets: &[u8]) -> Fields
    ensures { result ≡ first_fields packets.now }
{
    let count = tlp::decode::first_length(packets);
    fields_of(count, tlp::decode::decode(&packets[..count]))
}

pub fn musgarento_packet(
    packets: &[u8],
    count: &mut usize,
    kind: &mut u8,
    requester: &mut u16,
    address: &mut u64,
    value: &mut u32,
    pin: &mut u8,
    level: &mut u8,
) -> u8
    ensures { fields result count.new kind.new requester.new address.new value.new pin.new level.new
        ≡ first_fields packets.now }
{
    let told = first_fields(packets);
    *count = told.count;
    *kind = told.kind;
    *requester = told.requester;
    *address = told.address;
    *value = told.value;
    *pin = told.pin;
    *level = told.level;
    told.refusal
}
