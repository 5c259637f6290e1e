// Prints the envelopes of standard input: a header, a line for each, and the end or the refusal (document 01, "The broker
// envelope"). The input is read fragment by fragment, as it arrives. The texts are made by the library, which proves that together
// they are the text of the whole input (`printed_whole`, fragments/Printed); this program reads, and writes what the library made.
#![tactic(auto)]

use fragments::reporting::{is_refused, report_end, report_lines, report_title};
use fragments::stored::{Loaded, make_fresh};
use std::io::Read;

// A read or a write failed, and nothing follows.
#[derive(Drop)]
struct Failed;

// The bytes of a fragment at most. The text of so many fits the buffer for it (LINE_ROOM).
fn input_buffer() -> [u8; 2048] {
    [0u8; 2048]
}

fn record_buffer() -> [u8; Loaded::SIZE] {
    [0u8; Loaded::SIZE]
}

fn text_buffer() -> [u8; 65536] {
    [0u8; 65536]
}

// Writes a text that was made in a buffer.
fn show(rt: &impl Print, told: Option<usize>, text: &[u8]) -> Result<(), Failed> {
    let Some(n) = told else {
        return Err(Failed);
    };
    if text.len() < n {
        return Err(Failed);
    }
    rt.write_all(&text[..n]).map_err(|_| Failed)
}

// The next fragment of the input: what is there, if it is not more than the buffer holds. Whether another follows.
fn show_fragment(
    rt: &HostRuntime,
    rec: &mut [u8],
    input: &mut [u8],
    text: &mut [u8],
) -> Result<bool, Failed> {
    let mut source = rt.stdin();
    let Ok(n) = source.read(input) else {
        let _ = rt.write_all(b"a read failed, and what follows is not read\n");
        return Err(Failed);
    };
    if n == 0 {
        return Ok(false);
    }
    let told = report_lines(rec, &input[..n], text);
    show(rt, told, text)?;
    Ok(!is_refused(rec))
}

// Every fragment, to the end or a refusal. A proved loop has to end, and nothing says that the input does: so it has a number of turns that
// no run reads.
fn show_fragments(
    rt: &HostRuntime,
    rec: &mut [u8],
    input: &mut [u8],
    text: &mut [u8],
) -> Result<(), Failed> {
    for _ in 0..u64::MAX {
        if !show_fragment(rt, rec, input, text)? {
            return Ok(());
        }
    }
    Ok(())
}

fn show_all(
    rt: &HostRuntime,
    rec: &mut [u8],
    input: &mut [u8],
    text: &mut [u8],
) -> Result<(), Failed> {
    let _ = make_fresh(rec);
    let title = report_title(text);
    show(rt, title, text)?;
    show_fragments(rt, rec, input, text)?;
    let last = report_end(rec, text);
    show(rt, last, text)
}

fn main(rt: HostRuntime) {
    let mut rec = record_buffer();
    let mut input = input_buffer();
    let mut text = text_buffer();
    let _ = show_all(&rt, &mut rec, &mut input, &mut text);
}
