// A call of a player, on the bytes of the card and of the player.
ghost use Rattle.std.specs.Prelude.{◌≡◌, length, Ok, Some, IsSome};
ghost use Rattle.call_log.specs.Players.{advanced};
ghost use Rattle.call_log.specs.Plays.{onward};
ghost use Rattle.capi_log.specs.Crossing.{player_in, player_bytes, at_once, called_on, turned};

use crate::bytes::{is_between, player_of, put_counted, put_player};
use call_log::End;
use call_log::advance::{advance, advance_between, held_record, onward};
use call_log::answer::lacks_room;
use call_log::format::record_in;
use call_log::whole::whole_in;
use model::Answer;
use player::perform::perform;

// The player goes on no more: refusal 30.
#[derive(Clone, Copy, Debug, PartialEq, Eq)]
pub struct Stopped;

// What a call hands back beside the bytes: how many bytes of the log it took, and what became of the record, if one was performed.
#[derive(Clone, Copy)]
pub struct Turn {
    pub taken: usize,
    pub ended: Result<Option<Answer>, Stopped>,
}

// A record was performed.
fn done(taken: usize, answer: Answer) -> Turn
    ensures { result ≡ record { taken = taken; ended = Ok (Some answer) } }
{
    Turn {
        taken,
        ended: Ok(Some(answer)),
    }
}

// How many bytes the record has that stands whole in the log, if one does and the player is between two records.
fn at_once(player: &[u8; 25], log: &[u8]) -> Option<usize>
    ensures { result ≡ at_once player.now log.now }
{
    if !is_between(player) {
        return None;
    }
    whole_in(log)
}

// Writes the player after that record was answered: it is kept if it is to be tried again.
fn put_after(player: &mut [u8; 25], log: &[u8], answer: Answer)
    requires { IsSome (at_once player.old log.now) }
    ensures { player.new ≡ player_bytes (onward (advanced (player_in player.old) log.now).player answer) }
{
    if !lacks_room(answer) {
        put_counted(player);
        return;
    }
    let next = advance_between(words::get::word64(player, 17), log);
    put_player(player, onward(next.player, answer));
}

// One call: a record that stands whole in the log is read there, any other as the player takes it.
pub fn take_turn(
    card: &mut [u8],
    table: &mut [u8],
    pending: &mut [u8],
    player: &mut [u8; 25],
    log: &[u8],
    out: &mut [u8],
    count: &mut usize,
) -> Turn
    requires { length card.old ≡ 289 }
    ensures { turned result card.new table.new pending.new player.new out.new count.new
        ≡ called_on card.old table.old pending.old player.old log.now out.old }
{
    *count = 0;
    if let Some(size) = at_once(player, log) {
        let answer = perform(card, table, pending, record_in(log), out, count);
        put_after(player, log, answer);
        return done(size, answer);
    }
    let next = advance(player_of(player), log);
    let held = next.player;
    match next.end {
        End::More => {
            let all = next.taken;
            put_player(player, held);
            Turn {
                taken: all,
                ended: Ok(None),
            }
        }
        End::Whole => {
            let answer = perform(card, table, pending, held_record(held), out, count);
            put_player(player, onward(held, answer));
            done(next.taken, answer)
        }
        End::Wrong => {
            let before = next.taken;
            put_player(player, held);
            Turn {
                taken: before,
                ended: Err(Stopped),
            }
        }
    }
}
