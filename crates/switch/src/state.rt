// The wires that a switch keeps.
ghost use Rattle.std.specs.Prelude.{◌≡◌, ◌≤◌, ◌<◌, get_or};
ghost use Rattle.switch.specs.Switches.{idle, fresh, with_level, without_port};

use crate::{Port, Switch};

// A fresh switch: no wire is active.
pub fn start(requester: u16) -> Switch
    ensures { result ≡ fresh requester }
{
    let idle = Port { wires: [false; 4] };
    Switch {
        requester,
        ports: [idle; 8],
    }
}

// The wires of one port.
pub fn wires(ports: [Port; 8], port: usize) -> [bool; 4]
    requires { port < 8 }
    ensures { result ≡ (get_or ports port idle).wires }
{
    let kept = ports[port];
    kept.wires
}

// The wire of a pin at a port goes to a level.
pub fn with_level(mut s: Switch, port: usize, pin: u8, active: bool) -> Switch
    requires { (port < 8) × (1 ≤ pin) × (pin ≤ 4) }
    ensures { result ≡ with_level s port pin active }
{
    let mut kept = wires(s.ports, port);
    kept[(pin - 1) as usize] = active;
    s.ports[port] = Port { wires: kept };
    s
}

// A port drops its wires.
pub fn without_port(mut s: Switch, port: usize) -> Switch
    requires { port < 8 }
    ensures { result ≡ without_port s port }
{
    s.ports[port] = Port { wires: [false; 4] };
    s
}
