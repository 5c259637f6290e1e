// A line of standard input: the word that says what it is, and its bytes.
use crate::alternatives::explain_apdu;
use crate::messages::explain_message;
use crate::rows::say;
use editions::Edition;
use kinds::Direction;
use pdus::PduType;

// A count of at most five digits, and what follows it: a space, or the line's end.
fn count(line: &[u8]) -> Option<(usize, &[u8])> {
    let end = line.iter().position(|c| *c == b' ').unwrap_or(line.len());
    let (digits, rest) = line.split_at(end);
    let mut n: usize = 0;
    for c in digits {
        n = 10 * n + char::from(*c).to_digit(10)? as usize;
        if 99999 < n {
            return None;
        }
    }
    Some((n, rest))
}

// The bytes of a line, put into the first bytes of `out`. Spaces and a carriage return are passed over.
fn bytes<'a>(line: &[u8], out: &'a mut [u8]) -> Option<&'a [u8]> {
    let mut high: u8 = 0;
    let mut half = false;
    let mut n: usize = 0;
    for c in line {
        if *c != b' ' && *c != b'\r' {
            let d = char::from(*c).to_digit(16)? as u8;
            if half {
                *out.get_mut(n)? = 16 * high + d;
                n += 1;
            } else {
                high = d;
            }
            half = !half;
        }
    }
    if half {
        return None;
    }
    out.get(..n)
}

fn not_read(rt: &impl Print) {
    say(
        rt,
        b"not read: a line is `air BYTES`, `ground BYTES`, `air2 BYTES`, `ground2 BYTES`, `down COUNT BYTES` or `up COUNT BYTES`\n",
    );
}

fn explain_pdu_line(rt: &impl Print, line: &[u8], edition: Edition, pdus: PduType, out: &mut [u8]) {
    match bytes(line, out) {
        Some(s) => explain_apdu(rt, s, edition, pdus),
        None => not_read(rt),
    }
}

fn explain_message_line(rt: &impl Print, line: &[u8], direction: Direction, out: &mut [u8]) {
    let Some((bits, rest)) = count(line) else {
        not_read(rt);
        return;
    };
    match bytes(rest, out) {
        Some(s) => explain_message(rt, s, bits, direction),
        None => not_read(rt),
    }
}

// A line, and what is said of it.
pub(crate) fn explain_line(rt: &impl Print, line: &[u8], out: &mut [u8]) {
    say(rt, line);
    say(rt, b"\n");
    if let Some(rest) = line.strip_prefix(b"air ") {
        explain_pdu_line(rt, rest, Edition::Protected, PduType::AircraftPdus, out);
    } else if let Some(rest) = line.strip_prefix(b"ground ") {
        explain_pdu_line(rt, rest, Edition::Protected, PduType::GroundPdus, out);
    } else if let Some(rest) = line.strip_prefix(b"air2 ") {
        explain_pdu_line(rt, rest, Edition::Plain, PduType::AircraftPdus, out);
    } else if let Some(rest) = line.strip_prefix(b"ground2 ") {
        explain_pdu_line(rt, rest, Edition::Plain, PduType::GroundPdus, out);
    } else if let Some(rest) = line.strip_prefix(b"down ") {
        explain_message_line(rt, rest, Direction::Downlink, out);
    } else if let Some(rest) = line.strip_prefix(b"up ") {
        explain_message_line(rt, rest, Direction::Uplink, out);
    } else {
        not_read(rt);
    }
}
