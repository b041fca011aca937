// A player as 25 bytes: its stage, how many bytes it has taken, the 15 bytes of its record, and how many records were complete.
ghost use Rattle.std.specs.Prelude.{◌≡◌, true, length};
ghost use Rattle.words.specs.Bytes.{word64};
ghost use Rattle.call_log.specs.Players.{between, counted};
ghost use Rattle.capi_log.specs.Crossing.{player_in, player_bytes, is_card, is_player, is_between};

use call_log::{Player, Stage};

// Whether these are the bytes of a card.
pub fn is_card(bytes: &[u8]) -> bool
    ensures { result ≡ is_card bytes.now }
{
    capi::bytes::unread(bytes) == 0
}

// Whether these are the bytes of a player: 25, of which the first one is a stage. It is asked of any bytes, as its definition is.
pub fn is_player(bytes: &[u8]) -> bool
    ensures { result ≡ is_player bytes.now }
{
    if bytes.len() != 25 {
        return false;
    }
    bytes[0] < 4
}

// The player that the bytes hold.
pub fn player_of(bytes: &[u8; 25]) -> Player
    ensures { result ≡ player_in bytes.now }
{
    Player {
        stage: Stage::from(bytes[0]),
        taken: usize::from(bytes[1]),
        part: words::parts::array_at::<15>(bytes, 2),
        number: words::get::word64(bytes, 17),
    }
}

// Writes the bytes of a player over those of the player before it.
pub fn put_player(out: &mut [u8], player: Player)
    requires { length out.old ≡ 25 }
    ensures { out.new ≡ player_bytes player }
{
    let first = [u8::from(player.stage), (player.taken % 256) as u8];
    let a = words::put::put_slice(out, &first);
    let b = a + words::put::put_slice(&mut out[a..], &player.part);
    words::put::put_le(&mut out[b..], 8, player.number);
}

// Whether these are the bytes of a player between two records, whatever its number: three wide reads, no plainer as 17 bytes.
pub fn is_between(bytes: &[u8; 25]) -> bool
    ensures { result ≡ is_between bytes.now }
{
    (words::get::word16(bytes, 0) == 1)
        & (words::get::word64(bytes, 2) == 0)
        & (words::get::word64(bytes, 9) == 0)
}

// Of the bytes of a player between two records: one more record was complete.
pub fn put_counted(out: &mut [u8])
    requires { (length out.old ≡ 25) × (is_between out.old ≡ true) }
    ensures { out.new ≡ player_bytes (between (counted (word64 out.old 17))) }
{
    let number = call_log::advance::counted(words::get::word64(out, 17));
    words::put::put_le(&mut out[17..], 8, number);
}
