// Bytes of a log, taken one by one up to the end of a record or to a wrong byte.
ghost use Rattle.std.specs.Prelude.{◌≡◌, true, ◌≤◌, ◌<◌, length};
ghost use Rattle.call_log.specs.declared.Stage.TheVariants.{Header, Records};
ghost use Rattle.call_log.specs.Players.{is_playing, player_of, fits_later, scan};
ghost use Rattle.call_log.specs.Scanning.{scan_from, broken_at};

use crate::format::size_of;
use crate::kind::Kind;
use crate::{End, Player, Scanned, Stage};

// "CLG", and version 1.
pub const HEADER: [u8; 5] = [0x43, 0x4c, 0x47, 1, 0];

// A wrong byte behind `taken` others: the player goes on no more.
fn broken(player: Player, taken: usize) -> Scanned
    ensures { result ≡ broken_at player.number taken }
{
    Scanned {
        player: Player {
            stage: Stage::Broken,
            taken: 0,
            part: [0; 15],
            ..player
        },
        taken,
        end: End::Wrong,
    }
}

// Whether a byte fits behind the kind byte of a record: of a line it is 0 or 1.
pub fn fits_later(kind: u8, b: u8) -> bool
    ensures { result ≡ fits_later kind b }
{
    kind != Kind::Line as u8 || b < 2
}

// From place `from` of a log on, behind the kind byte of a record. Compiled into its callers, as `scan_record` is: else a record in two pieces takes an eighth more instructions.
#[inline(always)]
fn scan_rest(player: Player, log: &[u8], from: usize) -> Scanned
    requires { (is_playing Records player.taken player.part ≡ true) × (0 < player.taken) × (from ≤ length log.now) }
    ensures { result ≡ scan_from from (player_of Records player.taken player.part player.number) log.now }
{
    let kind = player.part[0];
    let size = size_of(kind).unwrap();
    let mut held = Player {
        stage: Stage::Records,
        ..player
    };
    for (i, &b) in log[from..].iter().enumerate() {
        if !fits_later(kind, b) {
            return broken(held, from + i);
        }
        held.part[held.taken] = b;
        held.taken += 1;
        if held.taken == size {
            return Scanned {
                player: held,
                taken: from + i + 1,
                end: End::Whole,
            };
        }
    }
    Scanned {
        player: held,
        taken: log.len(),
        end: End::More,
    }
}

// From place `from` of a log on, whatever the player's stage, with its bytes as those of a record.
#[inline(always)]
pub fn scan_record(player: Player, log: &[u8], from: usize) -> Scanned
    requires { (is_playing Records player.taken player.part ≡ true) × (from ≤ length log.now) }
    ensures { result ≡ scan_from from (player_of Records player.taken player.part player.number) log.now }
{
    let mut held = Player {
        stage: Stage::Records,
        ..player
    };
    if 0 < held.taken {
        return scan_rest(held, log, from);
    }
    if from == log.len() {
        return Scanned {
            player: held,
            taken: from,
            end: End::More,
        };
    }
    let kind = log[from];
    let Some(size) = size_of(kind) else {
        return broken(held, from);
    };
    held.part[0] = kind;
    held.taken = 1;
    if size == 1 {
        return Scanned {
            player: held,
            taken: from + 1,
            end: End::Whole,
        };
    }
    scan_rest(held, log, from + 1)
}

// From the start of a log on, whatever the player's stage, with its bytes as those of mark and version.
pub fn scan_header(player: Player, log: &[u8]) -> Scanned
    requires { player.taken < 5 }
    ensures { result ≡ scan (player_of Header player.taken player.part player.number) log.now }
{
    let mut held = Player {
        stage: Stage::Header,
        ..player
    };
    for (i, &b) in log.iter().enumerate() {
        if b != HEADER[held.taken] {
            return broken(held, i);
        }
        held.taken += 1;
        if held.taken == 5 {
            held.taken = 0;
            return scan_record(held, log, i + 1);
        }
    }
    Scanned {
        player: held,
        taken: log.len(),
        end: End::More,
    }
}
