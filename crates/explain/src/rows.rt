// What is printed: a line for each field, the refusal, and a mark under the byte.
use fields::{Fault, Reading, Refusal};

// What cannot be written is left out, as to a reader that is gone.
pub(crate) fn say(rt: &impl Print, words: &[u8]) {
    let _ = rt.write_all(words);
}

fn say_number(rt: &impl Print, n: u64) {
    let _ = rt.print(n);
}

fn show_number(rt: &impl Print, n: usize) {
    say_number(rt, n as u64);
}

// A field that was read: where it begins, how many bits it has, its name and its value. Nothing for a field of no bits.
fn show_row(rt: &impl Print, name: &[u8], at: usize, next: usize, value: u64) {
    if next <= at {
        return;
    }
    let width = next - at;
    say(rt, b"bit ");
    show_number(rt, at);
    say(rt, b", ");
    show_number(rt, width);
    if width == 1 {
        say(rt, b" bit: ");
    } else {
        say(rt, b" bits: ");
    }
    say(rt, name);
    say(rt, b" ");
    say_number(rt, value);
    say(rt, b"\n");
}

// Shows a field that was read at a place, and hands the answer on.
pub(crate) fn row(rt: &impl Print, name: &[u8], at: usize, f: Reading<u64>) -> Reading<u64> {
    let (v, next) = f?;
    show_row(rt, name, at, next, v);
    Ok((v, next))
}

fn show_name(rt: &impl Print, f: Fault) {
    match f {
        Fault::Short => {
            say(rt, b"SHORT");
        }
        Fault::Range => {
            say(rt, b"RANGE");
        }
        Fault::Extension => {
            say(rt, b"EXTENSION");
        }
        Fault::LengthForm => {
            say(rt, b"LENGTH-FORM");
        }
        Fault::Limit => {
            say(rt, b"LIMIT");
        }
        Fault::Tail => {
            say(rt, b"TAIL");
        }
        Fault::NotCarried => {
            say(rt, b"NOT-CARRIED");
        }
        Fault::Default => {
            say(rt, b"DEFAULT");
        }
    }
}

// The bytes, a space between them.
fn show_bytes(rt: &impl Print, s: &[u8]) {
    for (i, x) in s.iter().enumerate() {
        if 0 < i {
            say(rt, b" ");
        }
        let _ = print!(rt; "{x:02x}");
    }
    say(rt, b"\n");
}

// So many spaces, and the mark.
fn show_mark(rt: &impl Print, spaces: usize) {
    for _ in 0..spaces {
        say(rt, b" ");
    }
    say(rt, b"^\n");
}

// The refusal, the bytes, and a mark under the digit that has the bit; behind the last byte where the bits end.
pub(crate) fn refused(rt: &impl Print, r: Refusal, s: &[u8]) {
    let fault = r.fault;
    let at = r.at;
    say(rt, b"refused ");
    say_number(rt, fields::number(fault));
    say(rt, b" ");
    show_name(rt, fault);
    say(rt, b" at bit ");
    show_number(rt, at);
    say(rt, b": byte ");
    show_number(rt, at / 8);
    say(rt, b", bit ");
    show_number(rt, at % 8);
    say(rt, b"\n");
    show_bytes(rt, s);
    show_mark(rt, 3 * (at / 8) + at % 8 / 4);
}

pub(crate) fn accepted(rt: &impl Print) {
    say(rt, b"accepted\n");
}
