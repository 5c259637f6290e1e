// Compares two recordings of envelopes, of up to 32 KiB each (document 02, E13):
//
//     compare [--json] FIRST SECOND
//
// It prints what peat-compare prints. The first word says what was found (equal, differs, rest, refused), since the kit gives a program no
// status. What is found is what the library answers, whose contract is proved; this program reads the files and writes the words.
#![tactic(auto)]

ghost use Rattle.std.specs.Prelude.{◌≤◌, length, IfOk};

use recordings::Compared;
use recordings::comparing::compare;
use recordings::differing::rest;
use std::env::FillError;
use std::fs::File;
use std::io;
use std::io::Read as _;
use std::rt::{Env, Files};
use std::str::from_utf8;

// A byte more than a recording may have, so that a longer file is seen to be too long.
fn recording_buffer() -> [u8; 32769] {
    [0u8; 32769]
}

// Places for the most jobs that a list can be asked to take.
fn list_buffer() -> [u8; 65792] {
    [0u8; 65792]
}

// The longest path that is opened.
fn path_buffer() -> [u8; 4096] {
    [0u8; 4096]
}

// What cannot be written is left out, as to a reader that is gone.
fn say(rt: &impl Print, words: &[u8]) {
    let _ = rt.write_all(words);
}

fn say_number(rt: &impl Print, n: u64) {
    let _ = rt.print(n);
}

fn say_recording(rt: &impl Print, recording: u64) {
    if recording == 1 {
        say(rt, b"first");
        return;
    }
    say(rt, b"second");
}

fn say_field(rt: &impl Print, field: u64) {
    match field {
        1 => say(rt, b"kind"),
        2 => say(rt, b"job"),
        3 => say(rt, b"bit count"),
        _ => say(rt, b"body"),
    }
}

fn say_refusal(rt: &impl Print, number: u64) {
    match number {
        2 => say(rt, b"SHAPE"),
        20 => say(rt, b"CUT"),
        21 => say(rt, b"GROUPS"),
        22 => say(rt, b"KIND"),
        23 => say(rt, b"SIZE"),
        _ => say(rt, b"ROOM"),
    }
}

// The first so many jobs of a list, the others behind the first with words between.
fn say_jobs(rt: &impl Print, list: &[u8], count: usize, between: &[u8]) {
    let mut at: usize = 0;
    for _ in 0..count {
        let Some((job, next)) = bits::read_bits(list, usize::MAX, at, 64) else {
            return;
        };
        if at != 0 {
            say(rt, between);
        }
        say_number(rt, job);
        at = next;
    }
}

// ---- for people

fn say_list(rt: &impl Print, words: &[u8], list: &[u8], count: usize) {
    if count == 0 {
        return;
    }
    say(rt, words);
    say(rt, b" ");
    say_jobs(rt, list, count, b" ");
    say(rt, b"\n");
}

fn say_verdict(rt: &impl Print, r: Compared, left_over: usize) {
    if r.refusal != 0 {
        say(rt, b"refused ");
        say_number(rt, r.refusal);
        say(rt, b" (");
        say_refusal(rt, r.refusal);
        say(rt, b")");
        if r.recording != 0 {
            say(rt, b" in ");
            say_recording(rt, r.recording);
            say(rt, b" at ");
            say_number(rt, r.byte as u64);
        }
        say(rt, b"\n");
        return;
    }
    if r.field != 0 {
        say(rt, b"differs at ");
        say_number(rt, r.index as u64);
        say(rt, b" byte ");
        say_number(rt, r.byte as u64);
        say(rt, b": ");
        say_field(rt, r.field);
        say(rt, b"\n");
        return;
    }
    if r.recording != 0 {
        say(rt, b"rest of ");
        say_recording(rt, r.recording);
        say(rt, b" from byte ");
        say_number(rt, r.byte as u64);
        say(rt, b": ");
        say_number(rt, left_over as u64);
        say(rt, b" bytes\n");
        return;
    }
    say(rt, b"equal\n");
}

// ---- for programs

fn json_list(rt: &impl Print, words: &[u8], list: &[u8], count: usize) {
    say(rt, b", \"");
    say(rt, words);
    say(rt, b"\": [");
    say_jobs(rt, list, count, b", ");
    say(rt, b"]");
}

fn json_recording(rt: &impl Print, r: Compared) {
    say(rt, b", \"recording\": \"");
    say_recording(rt, r.recording);
    say(rt, b"\", \"byte\": ");
    say_number(rt, r.byte as u64);
}

fn json_verdict(rt: &impl Print, r: Compared, left_over: usize) {
    if r.refusal != 0 {
        say(rt, b"refused\", \"refusal\": ");
        say_number(rt, r.refusal);
        if r.recording != 0 {
            json_recording(rt, r);
        }
        return;
    }
    if r.field != 0 {
        say(rt, b"differs\", \"byte\": ");
        say_number(rt, r.byte as u64);
        say(rt, b", \"envelopes\": ");
        say_number(rt, r.index as u64);
        say(rt, b", \"field\": \"");
        say_field(rt, r.field);
        say(rt, b"\"");
        return;
    }
    if r.recording != 0 {
        say(rt, b"rest\"");
        json_recording(rt, r);
        say(rt, b", \"bytes\": ");
        say_number(rt, left_over as u64);
        return;
    }
    say(rt, b"equal\"");
}

// ---- the two files

// Compares what was read.
fn show<'a>(rt: &impl Print, json: bool, first: &'a [u8], second: &'a [u8]) {
    let mut left = list_buffer();
    let mut right = list_buffer();
    let mut twice = list_buffer();
    let r = compare(first, second, &mut left, &mut right, &mut twice);
    let left_over = rest(first, second).len();
    if json {
        say(rt, b"{\"verdict\": \"");
        json_verdict(rt, r, left_over);
        if r.refusal == 0 {
            json_list(rt, b"only_first", &left, r.first);
            json_list(rt, b"only_second", &right, r.second);
            json_list(rt, b"repeated", &twice, r.repeated);
        }
        say(rt, b"}\n");
        return;
    }
    say_verdict(rt, r, left_over);
    say_list(rt, b"only first", &left, r.first);
    say_list(rt, b"only second", &right, r.second);
    say_list(rt, b"repeated", &twice, r.repeated);
}

fn show_parts<'a>(
    rt: &impl Print,
    json: bool,
    first: &'a [u8],
    m: usize,
    second: &'a [u8],
    n: usize,
) {
    if first.len() < m {
        return;
    }
    if second.len() < n {
        return;
    }
    show(rt, json, &first[..m], &second[..n]);
}

// Reads until the buffer is full or the input ends, and answers how many bytes it put at the buffer's start.
fn read_full(input: &mut impl io::Read, buf: &mut [u8]) -> io::Result<usize>
    ensures { IfOk result (λ n. n ≤ length buf.new) }
{
    let mut done: usize = 0;
    while done < buf.len() {
        let n = input.read(&mut buf[done..])?;
        if n == 0 {
            break;
        }
        done += n;
    }
    Ok(done)
}

// The argument of this number, at the buffer's start, and how many bytes it has: none where it is missing or the buffer is too small.
fn argument(rt: &impl Env, number: usize, buf: &mut [u8]) -> usize
    ensures { result ≤ length buf.new }
{
    match rt.arg(number, buf) {
        Ok(n) => n,
        Err(_) => 0,
    }
}

// A file that is open, into a buffer: what it holds, as far as the buffer goes. A read that fails, also behind a full buffer, is no end.
fn fill_from(file: &mut impl io::Read, buf: &mut [u8]) -> io::Result<usize> {
    let got = read_full(file, buf)?;
    let mut one = [0u8; 1];
    file.read(&mut one)?;
    Ok(got)
}

// The file of this name, into a buffer.
fn fill_named(rt: &impl Files, name: &str, buf: &mut [u8]) -> io::Result<usize> {
    let mut file = File::open(rt, name)?;
    fill_from(&mut file, buf)
}

// The file that an argument names, into a buffer: how many bytes were read; none where it cannot be read.
fn fill(rt: &(impl Env + Files + Eprint), number: usize, buf: &mut [u8]) -> Option<usize> {
    let mut path = path_buffer();
    let n = argument(rt, number, &mut path);
    let Ok(name) = from_utf8(&path[..n]) else {
        let _ = eprintln!(rt; "a path is not text");
        return None;
    };
    match fill_named(rt, name, buf) {
        Ok(got) => Some(got),
        Err(e) => {
            let _ = eprintln!(rt; "{name}: {e}");
            None
        }
    }
}

fn run(rt: &(impl Env + Files + Print + Eprint), json: bool, one: usize, other: usize) {
    let mut first = recording_buffer();
    let mut second = recording_buffer();
    let Some(m) = fill(rt, one, &mut first) else {
        return;
    };
    let Some(n) = fill(rt, other, &mut second) else {
        return;
    };
    show_parts(rt, json, &first, m, &second, n);
}

// Whether the first argument asks for JSON.
fn asks_json(rt: &impl Env) -> bool {
    let mut word = [0u8; 8];
    let n = argument(rt, 1, &mut word);
    word[..n] == b"--json"[..]
}

// Whether there is an argument of this number.
fn is_there(rt: &impl Env, number: usize) -> bool {
    let mut none = [0u8; 0];
    !matches!(rt.arg(number, &mut none), Err(FillError::NotPresent))
}

fn main(rt: HostRuntime) {
    if asks_json(&rt) {
        if is_there(&rt, 3) && !is_there(&rt, 4) {
            run(&rt, true, 2, 3);
            return;
        }
    } else {
        if is_there(&rt, 2) && !is_there(&rt, 3) {
            run(&rt, false, 1, 2);
            return;
        }
    }
    let _ = eprintln!(rt; "usage: compare [--json] FIRST SECOND");
}
