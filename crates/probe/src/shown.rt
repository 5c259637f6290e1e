// Answers as lines.
use crate::Answer;
use fields::Reading;

// What cannot be written is left out, as to a reader that is gone.
pub(crate) fn say(rt: &impl Print, words: &[u8]) {
    let _ = rt.write_all(words);
}

fn say_number(rt: &impl Print, n: u64) {
    let _ = rt.print(n);
}

fn ok(rt: &impl Print, n: u64) {
    say(rt, b"ok ");
    say_number(rt, n);
    say(rt, b" ");
}

fn field_line(rt: &impl Print, f: Reading<u64>) {
    match f {
        Ok((v, next)) => {
            ok(rt, v);
            say_number(rt, next as u64);
        }
        Err(r) => {
            say(rt, b"refused ");
            say_number(rt, fields::number(r.fault));
            say(rt, b" at ");
            say_number(rt, r.at as u64);
        }
    }
}

// Two small digits a byte; a dash for no bytes.
fn bytes(rt: &impl Print, s: &[u8]) {
    if s.is_empty() {
        say(rt, b"-");
    }
    for &x in s {
        let _ = print!(rt; "{x:02x}");
    }
}

fn put_line(rt: &impl Print, p: Option<usize>, s: &[u8]) {
    match p {
        Some(next) => ok(rt, next as u64),
        None => say(rt, b"full "),
    }
    bytes(rt, s);
}

// Prints an answer and, after a writer, the lent bytes.
pub(crate) fn answer_line(rt: &impl Print, a: Answer, s: &[u8]) {
    match a {
        Answer::Read(f) => field_line(rt, f),
        Answer::Wrote(p) => put_line(rt, p, s),
    }
    say(rt, b"\n");
}
