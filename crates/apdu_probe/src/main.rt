// Answers requests about APDUs, a line for each, so that they can be held to an independent coder: tests/apdu/PROTOCOL.md says how requests
// and answers are written. Input past 65,536 bytes is not looked at.
#![tactic(auto)]

ghost use Rattle.std.specs.Prelude.{◌^◌, ◌<◌, ◌≤◌, length};

use apdu::{Apdu, Data, Forward, Heading, Triple};
use fields::Refusal;
use pdus::{PduType, Span};
use std::io;
use words::Unwritten;

// The bytes of a request before its body, and the end of a slice that means all of it.
const HEADER: usize = 65;

const ALL: usize = 18446744073709551615;

// The number that n bits at a place say.
fn number(s: &[u8], at: usize, n: usize) -> u64 {
    bits::read_bits(s, ALL, at, n).map_or(0, |(v, _)| v)
}

fn pdus(h: &[u8]) -> PduType {
    match number(h, 8, 8) {
        0 => PduType::AircraftPdus,
        _ => PduType::GroundPdus,
    }
}

fn span(h: &[u8], at: usize) -> Span
    requires { at < 2 ^ 32 }
{
    Span {
        at: number(h, at, 64) as usize,
        count: number(h, at + 64, 64) as usize,
    }
}

fn part(given: u64, x: Span) -> Option<Span> {
    if given == 0 { None } else { Some(x) }
}

fn asked_data(h: &[u8]) -> Data {
    Data {
        identifier: part(number(h, 24, 8), span(h, 104)),
        message: part(number(h, 32, 8), span(h, 232)),
        check: span(h, 360),
    }
}

fn triple(first: u64, second: u64, third: u64) -> Triple {
    Triple {
        first,
        second,
        third,
    }
}

// A forward message: its numbers stand where the other parts' places and counts stand.
fn asked_forward(h: &[u8]) -> Forward {
    let heading = Heading {
        date: triple(number(h, 104, 16), number(h, 120, 8), number(h, 128, 8)),
        time: triple(number(h, 136, 8), number(h, 144, 8), number(h, 152, 8)),
        characters: number(h, 160, 8),
        flight: number(h, 40, 64),
        address: number(h, 168, 64),
        direction: number(h, 360, 64),
    };
    Forward {
        heading,
        message: span(h, 232),
    }
}

fn asked(h: &[u8]) -> Apdu {
    let n = number(h, 40, 64);
    let d = asked_data(h);
    let f = asked_forward(h);
    match number(h, 16, 8) {
        0 => Apdu::AbortUser(n),
        1 => Apdu::AbortProvider(n),
        2 => Apdu::Start(n, d),
        3 => Apdu::Send(d),
        4 => Apdu::Forward(f),
        _ => Apdu::ForwardResponse(n),
    }
}

// What cannot be written is left out, as to a reader that is gone.
fn show_span(rt: &impl Print, x: Span) {
    let _ = print!(rt; " {}:{}", x.at, x.count);
}

fn show_part(rt: &impl Print, p: Option<Span>) {
    match p {
        None => {
            let _ = print!(rt; " -");
        }
        Some(x) => show_span(rt, x),
    }
}

fn show_data(rt: &impl Print, d: Data) {
    show_part(rt, d.identifier);
    show_part(rt, d.message);
    show_span(rt, d.check);
    let _ = println!(rt; "");
}

fn show_triple(rt: &impl Print, t: Triple) {
    let _ = print!(rt; " {} {} {}", t.first, t.second, t.third);
}

fn show_forward(rt: &impl Print, f: Forward) {
    let h = f.heading;
    show_triple(rt, h.date);
    show_triple(rt, h.time);
    show_triple(rt, triple(h.characters, h.flight, h.address));
    let _ = print!(rt; " {}", h.direction);
    show_span(rt, f.message);
    let _ = println!(rt; "");
}

fn show(rt: &impl Print, a: Apdu) {
    match a {
        Apdu::AbortUser(r) => {
            let _ = println!(rt; "abort-user {r}");
        }
        Apdu::AbortProvider(r) => {
            let _ = println!(rt; "abort-provider {r}");
        }
        Apdu::Start(m, d) => {
            let _ = print!(rt; "start {m}");
            show_data(rt, d);
        }
        Apdu::Send(d) => {
            let _ = print!(rt; "send");
            show_data(rt, d);
        }
        Apdu::Forward(f) => {
            let _ = print!(rt; "forward");
            show_forward(rt, f);
        }
        Apdu::ForwardResponse(r) => {
            let _ = println!(rt; "forward-response {r}");
        }
    }
}

fn show_answer(rt: &impl Print, r: Result<Apdu, Refusal>) {
    match r {
        Ok(a) => show(rt, a),
        Err(e) => {
            let _ = println!(rt; "refused {} at {}", fields::number(e.fault), e.at);
        }
    }
}

// The buffer, eight bytes at a time.
fn show_bytes(rt: &impl Print, s: &[u8], words: usize)
    requires { words ≤ 512 }
{
    for i in 0..words {
        let _ = print!(rt; "{:016x}", number(s, 64 * i, 64));
    }
    let _ = println!(rt; "");
}

fn show_written(rt: &impl Print, w: Result<usize, Unwritten>, s: &[u8], words: usize)
    requires { words ≤ 512 }
{
    let _ = match w {
        Ok(n) => print!(rt; "bits {n} "),
        Err(Unwritten::Room) => print!(rt; "room "),
        Err(Unwritten::Shape) => print!(rt; "shape "),
    };
    show_bytes(rt, s, words);
}

// What is written to a buffer of so many times eight bytes, each of them A5 before.
fn write(rt: &impl Print, h: &[u8], body: &[u8], out: &mut [u8], words: usize, whole: bool)
    requires { words ≤ 512 }
{
    out.fill(165);
    if whole {
        let w = apdu::put_apdu(out, pdus(h), asked(h), body, body, body);
        show_written(rt, w, out, words);
        return;
    }
    let w = apdu::put_data(out, asked_data(h), body, body, body);
    show_written(rt, w, out, words);
}

fn answer(rt: &impl Print, h: &[u8], body: &[u8], out: &mut [u8]) {
    let op = number(h, 0, 8);
    if op == 0 {
        show_answer(rt, apdu::read_apdu(body, pdus(h)));
        return;
    }
    let words = number(h, 488, 16) as usize;
    if 512 < words || out.len() < 8 * words {
        let _ = println!(rt; "bad");
        return;
    }
    write(rt, h, body, &mut out[..8 * words], words, op == 1);
}

fn answers(rt: &impl Print, s: &[u8], out: &mut [u8]) {
    let mut rest = s;
    while let Some((h, behind)) = rest.split_at_checked(HEADER) {
        let Some((body, next)) = behind.split_at_checked(number(h, 504, 16) as usize) else {
            break;
        };
        answer(rt, h, body, out);
        rest = next;
    }
}

// Reads until the buffer is full, the input ends or a read fails, and answers how many bytes it put at the buffer's start.
fn read_full(input: &mut impl io::Read, buf: &mut [u8]) -> usize
    ensures { result ≤ length buf.new }
{
    let mut done: usize = 0;
    while done < buf.len() {
        let Ok(n) = input.read(&mut buf[done..]) else {
            break;
        };
        if n == 0 {
            break;
        }
        done += n;
    }
    done
}

fn main(rt: HostRuntime) {
    let mut buf = [0u8; 65536];
    let mut out = [0u8; 4096];
    let n = read_full(&mut rt.stdin(), &mut buf);
    answers(&rt, &buf[..n], &mut out);
}
