// The call: a port goes down.
ghost use Rattle.std.specs.Prelude.{◌≡◌};
ghost use Rattle.switch.specs.Calls.{down, switch_step};
ghost use Rattle.switch.specs.Outcomes.{after};

use crate::Switch;
use crate::change::send_changes;
use crate::outcome::{Outcome, refuse};
use crate::state::without_port;
use model::refusal::Refusal;

// A port goes down.
pub fn down(s: Switch, port: u64, out: &mut [u8]) -> Outcome
    ensures { after result out.new ≡ switch_step s (down port out.old) }
{
    if 7 < port {
        return refuse(s, Refusal::PortPacket);
    }
    let next = without_port(s, port as usize);
    send_changes(s, next, out)
}
