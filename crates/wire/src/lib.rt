// The wire: the small state that decides its level, and the packet that a change of it owes.
#![tactic(auto)]

ghost use Rattle.std.specs.Prelude.{◌≡◌, ◌≤◌, length};
ghost use Rattle.words.specs.Writers.{Wrote};
ghost use Rattle.wire.specs.Wires.{due_of, with_level, with_line, with_mode, size_of, bytes_owed};

use model::Mode;

// The line, the wire, the mechanism in force, the pin number and Command bit 10.
#[derive(Clone, Copy)]
pub struct Wiring {
    pub line: bool,
    pub wire: bool,
    pub mode: Mode,
    pub pin: u8,
    pub disabled: bool,
}

// The level that the packet owed tells, if one is owed.
pub type Owed = Option<bool>;

// The state with the packet owed.
#[derive(Clone, Copy)]
pub struct Wired {
    pub wiring: Wiring,
    pub owed: Owed,
}

impl Wiring {
    // The level that the wire should have.
    pub fn due(self) -> bool
        ensures { result ≡ due_of self }
    {
        self.line && self.mode == Mode::Pin && self.pin != 0 && !self.disabled
    }

    // The wire goes to a level: a packet is owed if it had the other one.
    #[tactic(auto, unfolding(crate::specs::Wires::owed_of))]
    pub fn set_wire(mut self, level: bool) -> Wired
        ensures { result ≡ with_level self level }
    {
        let owed = if self.wire == level {
            None
        } else {
            Some(level)
        };
        self.wire = level;
        Wired { wiring: self, owed }
    }

    // The line goes to a level, and the wire to the one that it should have.
    pub fn set_line(mut self, level: bool) -> Wired
        ensures { result ≡ with_line self level }
    {
        self.line = level;
        let due = self.due();
        self.set_wire(due)
    }

    // Another mechanism in force and Command bit 10, and the wire to the level that it should have.
    pub fn set_mode(mut self, mode: Mode, disabled: bool) -> Wired
        ensures { result ≡ with_mode self mode disabled }
    {
        self.mode = mode;
        self.disabled = disabled;
        let due = self.due();
        self.set_wire(due)
    }
}

// The bytes of the packet owed.
#[tactic(auto, unfolding(crate::specs::Wires::size_of))]
pub fn owed_size(owed: Owed) -> usize
    ensures { result ≡ size_of owed }
{
    match owed {
        None => 0,
        Some(_) => 16,
    }
}

// The packet owed, written to the start of the output.
#[tactic(auto, unfolding(crate::specs::Wires::size_of, crate::specs::Wires::bytes_owed))]
pub fn put_owed(out: &mut [u8], owed: Owed, requester: u16, pin: u8) -> usize
    requires { (pin ≤ 4) × (size_of owed ≤ length out.old) }
    ensures { Wrote (bytes_owed owed requester pin) out.old result out.new }
{
    match owed {
        None => 0,
        Some(level) => tlp::put_wire(out, requester, pin, level),
    }
}
