// Why a call is refused. The numbers are those of documents 01 and 02, and the names those of the C header.
ghost use Rattle.std.specs.Prelude.{◌≡◌};
ghost use Rattle.model.specs.Refusals.{number_of};

#[derive(Clone, Copy, PartialEq, Eq)]
pub enum Refusal {
    NotSound = 1, // the card is not sound
    Event = 2, // event number E or more, or a vector that the mechanism does not have
    ConfigAccess = 3, // offset or width of a configuration access
    BarAccess = 4, // BAR, offset or width of a BAR access
    MemorySpace = 5, // a BAR access with Command bit 1 clear
    Room = 6, // the output is too short
    PinInForce = 7, // a withdrawal with the pin in force
    Header = 10, // header type or pin
    List = 11, // the capability list is broken
    Twice = 12, // MSI or MSI-X is listed twice
    Structure = 13, // where MSI or MSI-X stands in the configuration
    Region = 14, // where table and pending array stand in the BARs
    Events = 15, // the event count
    Requester = 16, // the requester ID
    Buffers = 17, // the lengths of the lent buffers
    Mark = 20, // an image under 294 bytes, or another mark
    Version = 21, // not version 1
    Image = 22, // an image that no sound card saves
    Log = 30, // a wrong byte of a log
    PortPacket = 50, // a port above 7, or bytes that a switch does not take
    Lengths = 60, // of the C interface: another length than the bytes have
}

impl Refusal {
    pub fn number(self) -> u8
        ensures { result ≡ number_of self }
    {
        self as u8
    }
}
