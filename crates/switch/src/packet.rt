// The call: a packet from a port.
ghost use Rattle.std.specs.Prelude.{◌≡◌, ◌≤◌, ◌<◌};
ghost use Rattle.switch.specs.Calls.{pass, switch_step};
ghost use Rattle.switch.specs.Outcomes.{after, message_passed, wire_taken};

use crate::Switch;
use crate::change::send_changes;
use crate::outcome::{Outcome, accepted, refuse};
use crate::state::with_level;
use model::refusal::Refusal;
use tlp::decode::{Level, Packet, decode};

// A message write: it passes unchanged.
fn pass_message(s: Switch, address: u32, packet: &[u8], out: &mut [u8]) -> Outcome
    ensures { after result out.new ≡ message_passed s address packet.now out.old }
{
    if address % 4 != 0 {
        return refuse(s, Refusal::PortPacket);
    }
    if out.len() < packet.len() {
        return refuse(s, Refusal::Room);
    }
    let count = words::put::put_slice(out, packet);
    accepted(s, count)
}

// Assert or Deassert: the port's wire goes to that level.
fn pass_wire(s: Switch, port: usize, w: Level, out: &mut [u8]) -> Outcome
    requires { (port < 8) × (1 ≤ w.pin) × (w.pin ≤ 4) }
    ensures { after result out.new ≡ wire_taken s port w out.old }
{
    if w.requester / 8 % 32 != 0 {
        return refuse(s, Refusal::PortPacket);
    }
    let next = with_level(s, port, w.pin, w.active);
    send_changes(s, next, out)
}

// A packet from a port.
pub fn pass(s: Switch, port: u64, packet: &[u8], out: &mut [u8]) -> Outcome
    ensures { after result out.new ≡ switch_step s (pass port packet.now out.old) }
{
    if 7 < port {
        return refuse(s, Refusal::PortPacket);
    }
    match decode(packet) {
        Some(Packet::Message(m)) => pass_message(s, m.address, packet, out),
        Some(Packet::Wire(w)) => pass_wire(s, port as usize, w, out),
        None => refuse(s, Refusal::PortPacket),
    }
}
