// A switch between up to eight cards and the host. What its types mean is defined in specs/.
#![tactic(auto)]

pub mod change; // the wire packets of changed upstream wires
pub mod down; // the call: a port goes down
pub mod join; // the wires of the ports, mapped and joined into four upstream wires
pub mod outcome; // what a call hands back
pub mod packet; // the call: a packet from a port
pub mod state; // the wires that a switch keeps

// The wires of a port, by the card's pins 1 to 4.
#[derive(Clone, Copy)]
pub struct Port {
    pub wires: [bool; 4],
}

// The ports 0 to 7 and the requester ID.
#[derive(Clone, Copy)]
pub struct Switch {
    pub ports: [Port; 8],
    pub requester: u16,
}
