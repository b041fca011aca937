// A switch as 10 bytes: the requester ID, low byte first, then a byte for each port, whose bit p - 1 is the wire of card pin p.
ghost use Rattle.std.specs.Prelude.{◌≡◌, ◌≤◌, length};
ghost use Rattle.words.specs.Bits.{of_bool};
ghost use Rattle.model.specs.Answers.{refusal_of};
ghost use Rattle.switch.specs.Switches.{port_of};
ghost use Rattle.capi_switch.specs.Crossing.{port_byte, switch_bytes, wires_in, switch_in, is_switch, ports_clean, switch_over};

use model::Answer;
use std::array;
use switch::state::wires;
use switch::{Port, Switch};

// Whether no port has more than four wires. One limit a port, so that the edit `port_byte_of_five_wires` can be wrong in one; a closure has one for all.
#[tactic(auto, using(crate::proofs::CrossingFor::wide_port))]
fn ports_clean(b: &[u8]) -> bool
    requires { length b.now ≡ 10 }
    ensures { result ≡ ports_clean b.now }
{
    matches!(b, [_, _, ..16, ..16, ..16, ..16, ..16, ..16, ..16, ..16])
}

// Whether these are the bytes of a switch.
pub fn is_switch(bytes: &[u8]) -> bool
    ensures { result ≡ is_switch bytes.now }
{
    bytes.len() == 10 && ports_clean(bytes)
}

// The wires in a port's byte.
fn port_of(b: u8) -> Port
    ensures { result ≡ port_of (wires_in b) }
{
    Port {
        wires: array::from_fn(|i| words::bits::bit(b, i)),
    }
}

// The switch that the bytes hold.
pub fn switch_of(b: &[u8]) -> Switch
    requires { length b.now ≡ 10 }
    ensures { result ≡ switch_in b.now }
{
    let requester = words::get::word16(b, 0);
    let mut ports = [port_of(0); 8];
    for (k, wires) in b[2..].iter().enumerate() {
        ports[k] = port_of(*wires);
    }
    Switch { requester, ports }
}

// A wire's level as a bit.
fn flag(active: bool) -> u8
    ensures { (result ≡ of_bool active) × (result ≤ 1) }
{
    active as u8
}

// A port's wires as a byte: four weights, which a fold over the wires would have to count up.
fn port_byte(wires: [bool; 4]) -> u8
    ensures { result ≡ port_byte wires }
{
    flag(wires[0]) + 2 * flag(wires[1]) + 4 * flag(wires[2]) + 8 * flag(wires[3])
}

// The bytes of a switch, written out as the layout: a loop over the ports would first need a list of zeros behind the two bytes of the requester ID.
fn bytes_of(s: Switch) -> [u8; 10]
    ensures { result ≡ switch_bytes s }
{
    let p = s.ports;
    [
        (s.requester % 256) as u8,
        (s.requester / 256 % 256) as u8,
        port_byte(wires(p, 0)),
        port_byte(wires(p, 1)),
        port_byte(wires(p, 2)),
        port_byte(wires(p, 3)),
        port_byte(wires(p, 4)),
        port_byte(wires(p, 5)),
        port_byte(wires(p, 6)),
        port_byte(wires(p, 7)),
    ]
}

// Writes the bytes of a switch over those of the switch before it.
pub fn put_switch(bytes: &mut [u8], s: Switch)
    requires { length bytes.old ≡ 10 }
    ensures { bytes.new ≡ switch_bytes s }
{
    bytes.copy_from_slice(&bytes_of(s));
}

// The number of an answer's refusal, or 0.
fn number_of(answer: Answer) -> u8
    ensures { result ≡ refusal_of answer }
{
    match answer {
        Answer::Refused(number) => number,
        _ => 0,
    }
}

// Writes the switch after an accepted call, and gives the number of the answer's refusal, or 0; a refused call leaves the bytes.
pub fn hand_back(bytes: &mut [u8], s: Switch, answer: Answer) -> u8
    requires { length bytes.old ≡ 10 }
    ensures { (result ≡ refusal_of answer) × (bytes.new ≡ switch_over (refusal_of answer) bytes.old s) }
{
    let number = number_of(answer);
    if number != 0 {
        return number;
    }
    put_switch(bytes, s);
    0
}
