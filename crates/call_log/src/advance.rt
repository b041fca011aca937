// What a call of a player takes, before it meets the card, and how the player goes on after it.
ghost use Rattle.std.specs.Prelude.{◌≡◌};
ghost use Rattle.call_log.specs.Logs.{record_in};
ghost use Rattle.call_log.specs.Players.{between, is_playing, counted, stopped, scanned, advanced};
ghost use Rattle.call_log.specs.Plays.{onward};

use crate::answer::lacks_room;
use crate::format::{record_in, size_of};
use crate::scan::{fits_later, scan_header, scan_record};
use crate::{End, Player, Record, Scanned, Stage};
use model::Answer;

// One more record is complete; past 2^64 - 1 the number stays there.
pub fn counted(number: u64) -> u64
    ensures { result ≡ counted number }
{
    number.saturating_add(1)
}

// Between two records.
fn between(number: u64) -> Player
    ensures { result ≡ between number }
{
    Player {
        stage: Stage::Records,
        taken: 0,
        part: [0; 15],
        number,
    }
}

// Whether a player goes on: part of the header or of a record is taken, or all of a record that is to be tried again.
fn is_playing(player: Player) -> bool
    ensures { result ≡ is_playing player.stage player.taken player.part }
{
    let taken = player.taken;
    let kind = player.part[0];
    match player.stage {
        Stage::Header => taken < 5,
        Stage::Records => taken == 0 || size_of(kind).is_some_and(|size| taken < size),
        Stage::Again => size_of(kind) == Some(taken) && fits_later(kind, player.part[1]),
        Stage::Broken => false,
    }
}

// The player goes on no more: it takes nothing, and nothing changes.
fn stopped(player: Player) -> Scanned
    ensures { result ≡ stopped player }
{
    Scanned {
        player,
        taken: 0,
        end: End::Wrong,
    }
}

// After the bytes of a call: a whole record is counted.
fn after_scan(s: Scanned) -> Scanned
    ensures { result ≡ scanned s s.end }
{
    match s.end {
        End::More => s,
        End::Whole => Scanned {
            player: Player {
                stage: Stage::Records,
                number: counted(s.player.number),
                ..s.player
            },
            ..s
        },
        End::Wrong => s,
    }
}

// Takes bytes of a log up to the end of the first complete record, which is then due, or none if a record is to be tried again.
pub fn advance(player: Player, log: &[u8]) -> Scanned
    ensures { result ≡ advanced player log.now }
{
    if !is_playing(player) {
        return stopped(player);
    }
    match player.stage {
        Stage::Header => after_scan(scan_header(player, log)),
        Stage::Records => after_scan(scan_record(player, log, 0)),
        Stage::Again => Scanned {
            player,
            taken: 0,
            end: End::Whole,
        },
        Stage::Broken => stopped(player),
    }
}

// The same for a player between two records, of which its number is all. It stands alone for speed: `advance` with a second caller is not compiled into the first.
pub fn advance_between(number: u64, log: &[u8]) -> Scanned
    ensures { result ≡ advanced (between number) log.now }
{
    after_scan(scan_record(between(number), log, 0))
}

// The record that a player holds.
pub fn held_record(player: Player) -> Record
    ensures { result ≡ record_in player.part }
{
    record_in(&player.part)
}

// After the record's call: after 6 it is to be tried again, else the next record follows.
pub fn onward(player: Player, answer: Answer) -> Player
    ensures { result ≡ onward player answer }
{
    if !lacks_room(answer) {
        return between(player.number);
    }
    Player {
        stage: Stage::Again,
        ..player
    }
}
