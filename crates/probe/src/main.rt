// Asks the functions of `bits` and `fields` one by one: reads requests from standard input, and prints a line for each.
// tests/fields/PROTOCOL.md says what a request is and what is printed. Input past 65,536 bytes is not looked at.
#![tactic(auto)]

ghost use Rattle.std.specs.Prelude.{◌≤◌, length};

mod readers;
mod request;
mod shown;
mod writers;

use fields::Reading;
use request::{HEADER, Request};
use std::io;

// The ops of writers begin here.
const WRITERS: u64 = 128;

// What a request is answered: what a reader or a writer finds.
#[derive(Drop)]
enum Answer {
    Read(Reading<u64>),
    Wrote(Option<usize>),
}

// The bytes of src at the front of dst.
fn paste(dst: &mut [u8], src: &[u8])
    requires { length src.now ≤ length dst.old }
{
    dst[..src.len()].copy_from_slice(src);
}

// The request asked of its function, None where there is no such op; a writer leaves the lent bytes as it does.
fn ask(q: Request, lent: &mut [u8], source: &[u8]) -> Option<Answer> {
    if q.op < WRITERS {
        return readers::read(q, lent);
    }
    writers::write(q, lent, source)
}

// Asks with a copy of the body for the lent bytes, and prints the answer; false where there is none.
fn answered(rt: &impl Print, q: Request, lent: &mut [u8], body: &[u8], source: &[u8]) -> bool
    requires { length body.now ≤ length lent.old }
{
    paste(lent, body);
    match ask(q, lent, source) {
        Some(a) => {
            shown::answer_line(rt, a, lent);
            true
        }
        None => false,
    }
}

// Answers the request that the input begins with, and says how many bytes it took: none where the input ends inside it, or its
// op is unknown.
fn answer_next(rt: &impl Print, s: &[u8], room: &mut [u8]) -> usize
    requires { length s.now ≤ length room.old }
    ensures { result ≤ length s.now }
{
    if s.len() < HEADER {
        return 0;
    }
    let q = request::header(s);
    let n = q.len;
    let m = q.more;
    let rest = s.len() - HEADER;
    if rest < n || rest - n < m {
        return 0;
    }
    let from = HEADER + n;
    let next = from + m;
    if answered(rt, q, &mut room[..n], &s[HEADER..from], &s[from..next]) {
        return next;
    }
    0
}

fn answer_all(rt: &impl Print, s: &[u8], room: &mut [u8])
    requires { length s.now ≤ length room.old }
{
    let mut at: usize = 0;
    while at < s.len() {
        let took = answer_next(rt, &s[at..], room);
        if took == 0 {
            shown::say(rt, b"bad\n");
            return;
        }
        at += took;
    }
}

fn large_buffer() -> [u8; 65536] {
    [0u8; 65536]
}

// Reads until the buffer is full, the input ends or a read fails, and answers how many bytes it put at the buffer's start.
fn read_full(input: &mut impl io::Read, buf: &mut [u8]) -> usize
    ensures { result ≤ length buf.new }
{
    let mut done: usize = 0;
    while done < buf.len() {
        let Ok(n) = input.read(&mut buf[done..]) else {
            break;
        };
        if n == 0 {
            break;
        }
        done += n;
    }
    done
}

fn main(rt: HostRuntime) {
    let mut input = large_buffer();
    let mut room = large_buffer();
    let n = read_full(&mut rt.stdin(), &mut input);
    answer_all(&rt, &input[..n], &mut room);
}
