// Logs of calls: their records, a player's state, and the recorder. No card is used here. What the types mean is defined in specs/.
#![tactic(auto)]

pub mod advance; // what a call of a player takes
pub mod answer; // what a record's call was answered with
pub mod format; // the bytes of a record
pub mod kind; // the kinds of records
pub mod recorder; // records appended
pub mod stages; // a player's stage as a byte
pub mod scan; // bytes taken one by one
pub mod whole; // a record that stands whole in the bytes

// A call that a log holds.
#[derive(Clone, Copy)]
pub enum Record {
    Event(u16),
    Line(bool),
    ConfigWrite {
        offset: u16,
        width: u8,
        value: u32,
    },
    BarWrite {
        bar: u8,
        offset: u32,
        width: u8,
        value: u64,
    },
    Reset,
}

// What a player reads next: mark and version; records; nothing, since its last record is to be tried again; nothing any more.
#[derive(Clone, Copy, Debug, PartialEq, Eq)]
pub enum Stage {
    Header,
    Records,
    Again,
    Broken,
}

// A player: how many bytes of the header or of a record it has taken, those of the record (the rest 0), and how many records were complete.
// An array with a length beside it, since memory is fixed, and C's 25 bytes of a player hold any pair of them.
#[derive(Clone, Copy)]
pub struct Player {
    pub stage: Stage,
    pub taken: usize,
    pub part: [u8; 15],
    pub number: u64,
}

// Where the bytes of a call end: before the end of a record; with a whole record, which is then due; at a wrong byte, or at
// none since the player goes on no more, which are refused with 30.
#[derive(Clone, Copy, Debug, PartialEq, Eq)]
pub enum End {
    More,
    Whole,
    Wrong,
}

// The bytes of a call, taken: the player after them, how many they are, and where they end.
#[derive(Clone, Copy)]
pub struct Scanned {
    pub player: Player,
    pub taken: usize,
    pub end: End,
}
