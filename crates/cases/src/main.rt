// The bench cases of document 01, and those of request [6] of document 02, run on the code. Each call prints a line, and the packets that it sent.
// This file prints: what a call gives, and whether that is right, is in the modules.
#![tactic(auto)]

ghost use Rattle.std.specs.Prelude.{◌≡◌, ◌≤◌, length};
ghost use Rattle.cases.specs.Steps.{case_count};

use crate::row::{Kind, Row, Shown};
use crate::run::Run;
use card::outcome::Outcome;
use model::Answer;
use std::io::{self, Write};
use tlp::decode::{Level, Message, Packet};
use words::parts::part;

mod calls;
mod config;
mod play;
mod row;
mod run;
mod table;

// Text to standard output: no contract says what is written there. A write that fails is passed over, since what the
// cases give does not depend on it.
fn text(rt: &impl Print, s: &[u8]) {
    let mut out = io::writer(rt);
    let _ = out.write_all(s);
}

// The low `width` bytes of a number, as document 01 writes them.
fn number(rt: &impl Print, value: u64, width: u8) {
    let _ = match width {
        1 => print!(rt; "{:02X}h", value % 256),
        2 => print!(rt; "{:04X}h", value % 65536),
        4 => print!(rt; "{:08X}h", value % 4294967296),
        _ => print!(rt; "{value:016X}h"),
    };
}

// Bytes in the order of a list, with blanks between.
fn bytes(rt: &impl Print, s: &[u8]) {
    for (i, b) in s.iter().enumerate() {
        let blank = if i != 0 { " " } else { "" };
        let _ = print!(rt; "{blank}{b:02X}");
    }
}

fn print_level(rt: &impl Print, l: Level) {
    let active = if l.active { "asserted" } else { "deasserted" };
    let _ = println!(rt; "pin {} {active}, requester {:04X}h", l.pin, l.requester);
}

fn print_message(rt: &impl Print, m: Message) {
    let _ = println!(rt;
        "message to {:08X}{:08X}h, data {:08X}h, requester {:04X}h",
        m.upper, m.address, m.value, m.requester
    );
}

// A packet: a line with its bytes, and one with what they mean.
fn print_packet(rt: &impl Print, s: &[u8]) {
    text(rt, b"    ");
    bytes(rt, s);
    text(rt, b"\n    ");
    match tlp::decode::decode(s) {
        Some(Packet::Message(m)) => print_message(rt, m),
        Some(Packet::Wire(l)) => print_level(rt, l),
        None => text(rt, b"no packet of document 01\n"),
    }
}

// Packets that stand one after another: where the next one stands is known when one was read.
fn print_packets(rt: &impl Print, s: &[u8]) {
    let mut at = 0;
    while at < s.len() {
        let rest = &s[at..];
        let n = tlp::decode::first_length(rest);
        print_packet(rt, part(rest, 0, n));
        at += n;
    }
}

fn print_answer(rt: &impl Print, a: Answer, width: u8) {
    let _ = match a {
        Answer::Refused(n) => println!(rt; "refused with {n}"),
        Answer::Done => println!(rt; "done"),
        Answer::Value(v) => {
            text(rt, b"value ");
            number(rt, v, width);
            println!(rt)
        }
        Answer::Sent => println!(rt; "sent"),
        Answer::Held => println!(rt; "held"),
        Answer::Merged => println!(rt; "merged"),
        Answer::Lost => println!(rt; "lost"),
    };
}

fn verdict(rt: &impl Print, good: bool) {
    text(
        rt,
        if good {
            b"    as the papers say\n"
        } else {
            b"    DIFFERENT\n"
        },
    );
}

// The state that no register access is needed for.
fn print_state(rt: &impl Print, run: Run) {
    let line = if run.card.function.line {
        "high"
    } else {
        "low"
    };
    let wire = if run.card.wire { "active" } else { "inactive" };
    let _ = print!(rt;
        "  state: line {line}, wire {wire}, MSI waiting bits {:08X}h",
        run.card.function.waiting
    );
    if run.vectors != 0 {
        text(rt, b", pending array ");
        bytes(rt, &run.pending);
    }
    text(rt, b"\n");
}

fn print_config(rt: &impl Print, config: [u8; 256]) {
    let _ = print!(rt;
        "  configuration: Status {:02X}h, list at {:02X}h, pin {}, bytes 40h to 4Bh: ",
        config[0x06], config[0x34], config[0x3d]
    );
    bytes(rt, &config[0x40..0x4c]);
    text(rt, b"\n");
}

fn print_start(rt: &impl Print, row: Row, bytes: &[u8]) {
    print_config(rt, config::config_at(bytes, row.place));
    let _ = print!(rt;
        "  start, E = {}, requester 0100h, BAR 0 of {:08X}h bytes, BAR 1 of {:08X}h bytes: ",
        row.b, row.c, row.a
    );
}

// Offset and width of an access, and the value that is written.
fn print_access(rt: &impl Print, row: Row, offset_width: u8, writes: bool) {
    number(rt, u64::from(row.a), offset_width);
    let _ = print!(rt; ", {} bytes", row.b);
    if writes {
        text(rt, b", ");
        number(rt, u64::from(row.c), (row.b % 256) as u8);
    }
    text(rt, b": ");
}

// The start of a call's line: its arguments.
fn print_call(rt: &impl Print, row: Row, bytes: &[u8]) {
    match row.kind {
        Kind::Start => print_start(rt, row, bytes),
        Kind::Read => {
            text(rt, b"  configuration read at ");
            print_access(rt, row, 1, false);
        }
        Kind::Write => {
            text(rt, b"  configuration write at ");
            print_access(rt, row, 1, true);
        }
        Kind::BarRead => {
            text(rt, b"  BAR 0 read at ");
            print_access(rt, row, 2, false);
        }
        Kind::BarWrite => {
            text(rt, b"  BAR 0 write at ");
            print_access(rt, row, 2, true);
        }
        Kind::Event => {
            let _ = print!(rt; "  event {}, output of {} bytes: ", row.a, row.b);
        }
        Kind::Line => text(
            rt,
            if row.b != 0 {
                b"  line high: "
            } else {
                b"  line low: "
            },
        ),
        _ => {
            let _ = print!(rt; "  save, output of {} bytes: ", row.b);
        }
    }
}

// How many bytes are 0.
fn zeros(s: &[u8]) -> usize
    ensures { result ≤ length s.now }
{
    s.iter().filter(|b| **b == 0).count()
}

// The first ten bytes of an image, and how many of the others are 0.
fn print_image(rt: &impl Print, image: &[u8]) {
    let rest = part(image, 10, image.len());
    text(rt, b"    ");
    bytes(rt, part(image, 0, 10));
    let _ = println!(rt;
        "\n    then {} bytes, of which {} are 0",
        rest.len(),
        zeros(rest)
    );
}

fn print_comparison(rt: &impl Print, same: bool) {
    let word = if same { "are the same" } else { "differ" };
    let _ = println!(rt; "  the two images {word}");
}

// Whether a call should do more than prepare the case: that is, answer anything but done, or send; or is marked so.
fn is_result(row: Row) -> bool {
    row.kind != Kind::Keep
        && (row.size != 0 || !matches!(row.answer, Answer::Done) || row.shown == Shown::Verdict)
}

// The end of a call's line, its packets or image, and whether it gave what it should. A value is shown with as many bytes as were read.
fn print_result(rt: &impl Print, row: Row, o: Outcome, out: &[u8], good: bool) {
    print_answer(rt, o.answer, (row.b % 256) as u8);
    let sent = part(out, 0, o.count);
    match row.kind {
        Kind::Image => print_image(rt, sent),
        Kind::Compare => print_comparison(rt, good),
        Kind::Keep => {}
        _ => print_packets(rt, sent),
    }
    if !good || is_result(row) {
        verdict(rt, good);
    }
}

fn print_after(rt: &impl Print, row: Row, run: Run) {
    if row.shown != Shown::Nothing {
        print_state(rt, run);
    }
}

fn print_title(rt: &impl Print, row: Row, bytes: &[u8]) {
    text(
        rt,
        part(bytes, usize::from(row.place), usize::from(row.size)),
    );
}

// 1 for a case that is as the papers say.
fn one(rt: &impl Print, number: u8) -> u64
    requires { (1 ≤ number) × (number ≤ case_count) }
    ensures { result ≡ 1 }
{
    let good = play::case(rt, number);
    text(rt, b"\n");
    if good { 1 } else { 0 }
}

// How many of the cases are as the papers say.
fn passed(rt: &impl Print) -> u64
    ensures { result ≡ case_count }
{
    let mut n: u64 = 0;
    for number in 1..table::CASE_COUNT + 1 {
        n += one(rt, number);
    }
    n
}

fn main(rt: HostRuntime) {
    let n = passed(&rt);
    let _ = println!(rt; "{n} of {} cases are as the papers say", table::CASE_COUNT);
}
