// Explains recorded APDUs and CPDLC messages to whoever looks for a fault in them. Standard input has one in a line:
//
//     air BYTES         an APDU that an aircraft sent (AircraftPDUs)
//     ground BYTES      an APDU that the ground sent (GroundPDUs)
//     air2 BYTES        the same two of application type 2
//     ground2 BYTES
//     down COUNT BYTES  the first COUNT bits as a message that an aircraft sent
//     up COUNT BYTES    the first COUNT bits as a message that the ground sent
//
// BYTES are in hexadecimal, with spaces or without. For each line the program prints the line, the fields that were read, and `accepted` or the
// refusal with its bit and a mark under the byte. Whether it is accepted, and where it is refused, is what the card's own readers answer; the fields
// before that are read by the same readers of fields.
// Input of more than 65,536 bytes is not looked at, and the program says so.
#![tactic(auto)]

mod alternatives;
mod forwards;
mod lines;
mod messages;
mod rows;

ghost use Rattle.std.specs.Prelude.{◌≤◌, length};

use lines::explain_line;
use rows::say;
use std::io;

fn large_buffer() -> [u8; 65536] {
    [0u8; 65536]
}

// Reads until the buffer is full, the input ends or a read fails, and answers how many bytes it put at the buffer's start.
fn read_full(input: &mut impl io::Read, buf: &mut [u8]) -> usize
    ensures { result ≤ length buf.new }
{
    let mut done: usize = 0;
    while done < buf.len() {
        let Ok(n) = input.read(&mut buf[done..]) else {
            break;
        };
        if n == 0 {
            break;
        }
        done += n;
    }
    done
}

// Whether the input has a byte more.
fn has_more(input: &mut impl io::Read) -> bool {
    let mut one = [0u8; 1];
    0 < read_full(input, &mut one)
}

// Each line in turn.
fn explain_all(rt: &impl Print, s: &[u8], bytes: &mut [u8]) {
    for line in s.split_inclusive(|c| *c == b'\n') {
        explain_line(rt, line.strip_suffix(b"\n").unwrap_or(line), bytes);
    }
}

fn main(rt: HostRuntime) {
    let mut input = large_buffer();
    let n = read_full(&mut rt.stdin(), &mut input);
    if n == input.len() && has_more(&mut rt.stdin()) {
        say(&rt, b"input of more than 65536 bytes, not read\n");
        return;
    }
    let mut bytes = large_buffer();
    explain_all(&rt, &input[..n], &mut bytes);
}
