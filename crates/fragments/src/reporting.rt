// The text that is printed of envelopes as they arrive: a header, a line for each envelope that a fragment finishes, and the end or the
// refusal.
ghost use Rattle.std.specs.Prelude.{◌≡◌, ◌+◌, ◌≤◌, length};
ghost use Rattle.envelope.specs.Numbers.{Put};
ghost use Rattle.envelope.specs.Envelopes.{most_bits};
ghost use Rattle.fragments.specs.Record.{load_at};
ghost use Rattle.fragments.specs.Texts.{end_of, line_of, refusal_of};
ghost use Rattle.fragments.specs.Reports.{is_refused, last_at, lines_at, page, said, title_at};

use crate::decimals::put_decimal;
use crate::ending::end;
use crate::putting::put_bytes;
use crate::stored::{count_in, load, place_in};
use crate::taking::{place_behind, take};
use crate::{Taken, Untaken};
use envelope::EnvelopeRefusal;

// The bytes that a buffer has at least for a header or a last line, and for each byte of a fragment. A line takes this many at most.
pub const LAST_ROOM: usize = 64;

pub const LINE_ROOM: usize = 29;

// Bytes, and the position after them.
fn put_text(out: &mut [u8], at: usize, text: &[u8]) -> usize
    requires { at + length text.now ≤ length out.old }
    ensures { Put out.old out.new at result text.now }
{
    put_bytes(out, at, text);
    at + text.len()
}

fn put_line(out: &mut [u8], at: usize, kind: u64, job: u64, bits: u64) -> usize
    requires { at + length (line_of kind job bits) ≤ length out.old }
    ensures { Put out.old out.new at result (line_of kind job bits) }
{
    let a = put_decimal(out, at, kind);
    let b = put_text(out, a, b" ");
    let c = put_decimal(out, b, job);
    let d = put_text(out, c, b" ");
    let e = put_decimal(out, d, bits);
    put_text(out, e, b"\n")
}

fn put_end(out: &mut [u8], at: usize, read: u64) -> usize
    requires { at + length (end_of read) ≤ length out.old }
    ensures { Put out.old out.new at result (end_of read) }
{
    let a = put_text(out, at, b"end ");
    let b = put_decimal(out, a, read);
    put_text(out, b, b"\n")
}

fn put_refusal(out: &mut [u8], at: usize, r: EnvelopeRefusal, begin: u64) -> usize
    requires { at + length (refusal_of r begin) ≤ length out.old }
    ensures { Put out.old out.new at result (refusal_of r begin) }
{
    let a = put_text(out, at, b"refused ");
    let b = put_decimal(out, a, r.number());
    let c = put_text(out, b, b" at ");
    let d = put_decimal(out, c, begin);
    put_text(out, d, b"\n")
}

// Each of the three that follow answers the bytes that its text takes of the buffer; none where the buffer is too small for any such text.

// The header, into a buffer of LAST_ROOM bytes at least.
#[tactic(auto, using(crate::proofs::Lines::no_title))]
pub fn report_title(out: &mut [u8]) -> Option<usize>
    ensures { page result out.new ≡ title_at out.old }
{
    if out.len() < LAST_ROOM {
        return None;
    }
    Some(put_text(out, 0, b"kind job bits\n"))
}

// A line for each envelope that the fragment finishes, into a buffer of LINE_ROOM bytes at least for each byte of it.
pub fn report_lines(rec: &mut [u8], fragment: &[u8], out: &mut [u8]) -> Option<usize>
    ensures { said result rec.new out.new ≡
        lines_at most_bits rec.old fragment.now out.old }
{
    if out.len() / LINE_ROOM < fragment.len() {
        return None;
    }
    let mut p: usize = 0;
    let mut at: usize = 0;
    for turn in 0..fragment.len() + 1 {
        match take(rec, &fragment[at..]) {
            Ok(Taken::Whole(e, n)) => {
                p = put_line(out, p, e.kind, e.job, e.bits);
                at += n;
            }
            Ok(Taken::Part(_)) => return Some(p),
            Err(_) => return Some(p),
        }
    }
    Some(p)
}

// The last line, into a buffer of LAST_ROOM bytes at least: the input has ended, or was refused.
pub fn report_end(rec: &mut [u8], out: &mut [u8]) -> Option<usize>
    ensures { said result rec.new out.new ≡ last_at most_bits rec.old out.old }
{
    if out.len() < LAST_ROOM {
        return None;
    }
    match end(rec) {
        Ok(Taken::Part(_)) => {
            let read = place_behind(place_in(rec), count_in(rec));
            Some(put_end(out, 0, read))
        }
        Err(Untaken::Refused(r)) => Some(put_refusal(out, 0, r, place_in(rec))),
        Ok(Taken::Whole(_, _)) => Some(0),
        Err(Untaken::Shape) => Some(0),
    }
}

// Whether an earlier call refused the input.
pub fn is_refused(rec: &[u8]) -> bool
    ensures { result ≡ is_refused (load_at most_bits rec.now) }
{
    matches!(load(rec), Err(Untaken::Refused(_)))
}
