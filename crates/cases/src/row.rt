// A row of the table, read from its characters.
ghost use Rattle.std.specs.Prelude.{◌≡◌, ◌+◌, ◌*◌, ◌≤◌, ◌<◌, length, take, drop};
ghost use Rattle.cases.specs.Rows.{digit_of, decimal2, decimal3, hex2, hex4, hex8, kind_of, shown_of, answer_by, row_of};
ghost use Rattle.cases.specs.Steps.{row_count};

use crate::table::ROW_COUNT;
use model::Answer;
use words::parts::part;

// What a row does: it lends new buffers, or calls the card.
#[derive(Clone, Copy, Debug, PartialEq, Eq)]
pub enum Kind {
    New,
    Start,
    Read,
    Write,
    BarRead,
    BarWrite,
    Event,
    Line,
    Image,
    Keep,
    Compare,
}

impl From<u8> for Kind {
    ghost from_gives = { λ letter kind. kind ≡ kind_of letter };

    fn from(letter: u8) -> Self {
        match letter {
            b'n' => Kind::New,
            b's' => Kind::Start,
            b'r' => Kind::Read,
            b'w' => Kind::Write,
            b'R' => Kind::BarRead,
            b'W' => Kind::BarWrite,
            b'e' => Kind::Event,
            b'l' => Kind::Line,
            b'k' => Kind::Keep,
            b'c' => Kind::Compare,
            _ => Kind::Image,
        }
    }
}

// What is shown after a call.
#[derive(Clone, Copy, Debug, PartialEq, Eq)]
pub enum Shown {
    Nothing,
    State,
    Verdict,
}

impl From<u8> for Shown {
    ghost from_gives = { λ letter shown. shown ≡ shown_of letter };

    fn from(letter: u8) -> Self {
        match letter {
            b's' => Shown::State,
            b'v' => Shown::Verdict,
            _ => Shown::Nothing,
        }
    }
}

// What `table.rt` says of the columns.
#[derive(Clone, Copy)]
pub struct Row {
    pub number: u8,
    pub kind: Kind,
    pub a: u16,
    pub b: u16,
    pub c: u32,
    pub answer: Answer,
    pub place: u16,
    pub size: u16,
    pub shown: Shown,
}

// A hexadecimal digit; below the digits 0.
fn digit(b: u8) -> u8
    ensures { (result ≡ digit_of b) × (result ≤ 15) }
{
    if 65 <= b {
        return (b - 55) % 16;
    }
    if 48 <= b {
        return (b - 48) % 16;
    }
    0
}

// Numbers of two and three decimal digits.
fn decimal2(s: &[u8], at: usize) -> u8
    requires { at + 2 ≤ length s.now }
    ensures { (result ≡ decimal2 s.now at) × (result ≤ 165) }
{
    digit(s[at]) * 10 + digit(s[at + 1])
}

fn decimal3(s: &[u8], at: usize) -> u16
    requires { at + 3 ≤ length s.now }
    ensures { result ≡ decimal3 s.now at }
{
    (digit(s[at]) as u16) * 100 + (decimal2(s, at + 1) as u16)
}

// Numbers of two, four and eight hexadecimal digits.
fn hex2(s: &[u8], at: usize) -> u8
    requires { at + 2 ≤ length s.now }
    ensures { result ≡ hex2 s.now at }
{
    digit(s[at]) * 16 + digit(s[at + 1])
}

fn hex4(s: &[u8], at: usize) -> u16
    requires { at + 4 ≤ length s.now }
    ensures { result ≡ hex4 s.now at }
{
    (hex2(s, at) as u16) * 256 + (hex2(s, at + 2) as u16)
}

fn hex8(s: &[u8], at: usize) -> u32
    requires { at + 8 ≤ length s.now }
    ensures { result ≡ hex8 s.now at }
{
    (hex4(s, at) as u32) * 65536 + (hex4(s, at + 4) as u32)
}

// The answer that a call should give, by its letter, the value that it reads and the number that refuses it.
fn answer_by(letter: u8, value: u32, refusal: u8) -> Answer
    ensures { result ≡ answer_by letter value refusal }
{
    match letter {
        b's' => Answer::Sent,
        b'h' => Answer::Held,
        b'm' => Answer::Merged,
        b'l' => Answer::Lost,
        b'v' => Answer::Value(u64::from(value)),
        b'r' => Answer::Refused(refusal),
        _ => Answer::Done,
    }
}

// The row that a slice starts with.
fn row_of(s: &[u8]) -> Row
    requires { 45 ≤ length s.now }
    ensures { result ≡ row_of s.now }
{
    let c = hex8(s, 18);
    Row {
        number: decimal2(s, 0),
        kind: Kind::from(s[3]),
        a: hex4(s, 9),
        b: decimal3(s, 14),
        c,
        answer: answer_by(s[27], c, decimal2(s, 32)),
        place: hex4(s, 35),
        size: decimal3(s, 40),
        shown: Shown::from(s[44]),
    }
}

// Row i of the table.
pub fn row_at(rows: &[u8; 45 * ROW_COUNT], i: usize) -> Row
    requires { i < row_count }
    ensures { result ≡ row_of (take 45 (drop (45 * i) rows.now)) }
{
    row_of(part(rows, 45 * i, 45))
}
