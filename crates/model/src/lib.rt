// The types of the card model. What they mean is defined in specs/.
#![tactic(auto)]

pub mod refusal; // why a call is refused, and the number of it

// One function: its 256 configuration bytes, its BAR sizes, event count E, requester ID, line and MSI waiting bits.
// The MSI-X table and the pending array are lent at each call.
#[derive(Clone, Copy)]
pub struct Function {
    pub config: [u8; 256],
    pub sizes: [u32; 6],
    pub events: u16,
    pub requester: u16,
    pub line: bool,
    pub waiting: u32,
}

// The card: its function, and the wire, which belongs to the card.
#[derive(Clone, Copy)]
pub struct Card {
    pub function: Function,
    pub wire: bool,
}

// The mechanism in force.
#[derive(Clone, Copy, PartialEq, Eq)]
pub enum Mode {
    Pin,
    Msi,
    Msix,
}

// What a call answers: refused with its number; or accepted, with the value of a read, whether a withdrawn bit was set (1 or 0),
// or the fate of an event. It is no `Result` with a `Refusal`: the definitions of the calls and the theorems over them (`refused_unchanged`,
// `room_exact`) answer with it.
#[derive(Clone, Copy, PartialEq, Eq)]
pub enum Answer {
    Refused(u8),
    Done,
    Value(u64),
    Sent,
    Held,
    Merged,
    Lost,
}

// A row of the table of MSI forms: the offsets of Message Data, Mask Bits and Pending Bits (0 where there are none), and the length.
#[derive(Clone, Copy)]
pub struct Form {
    pub message: usize,
    pub mask: usize,
    pub pending: usize,
    pub size: usize,
}

// Where a structure lies in a BAR.
#[derive(Clone, Copy, PartialEq, Eq)]
pub struct Region {
    pub bar: usize,
    pub at: usize,
}

// The MSI capability at configuration byte `at`: Multiple Message Capable, 64-bit addresses, per-vector masks, extended message data.
// All zero where there is none, and no Option, as the definitions `shape_of` and `msi_present` have it.
#[derive(Clone, Copy)]
pub struct MsiShape {
    pub at: usize,
    pub capable: usize,
    pub wide: bool,
    pub masks: bool,
    pub extended: bool,
}

// The MSI-X capability at configuration byte `at`: N, the table and the pending array. All zero where there is none, too.
#[derive(Clone, Copy)]
pub struct MsixShape {
    pub at: usize,
    pub vectors: usize,
    pub table: Region,
    pub pending: Region,
}

// What the configuration says of both, and no write changes.
#[derive(Clone, Copy)]
pub struct Shape {
    pub msi: MsiShape,
    pub msix: MsixShape,
}

// What the configuration says at a time: its shape, the form of its MSI, and the mechanism in force.
#[derive(Clone, Copy)]
pub struct Profile {
    pub shape: Shape,
    pub form: Form,
    pub mode: Mode,
}

// An event number is not a vector number.
#[derive(Clone, Copy, PartialEq, Eq)]
pub struct Event(pub u16);

#[derive(Clone, Copy, PartialEq, Eq)]
pub struct Vector(pub u16);
