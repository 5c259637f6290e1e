// Message data written from the first bit of a lent buffer on, behind what stands before them in an APDU, or by themselves; and a part of them by
// itself. Everything that can be refused is decided first; then the fields are written straight into the buffer, one after the other, and the padding
// last. Numbers of a few bits wait for the length behind them: they and it go out as one.
ghost use Rattle.std.specs.Prelude.{◌≡◌, true, ◌++◌, ◌+◌, ◌*◌, ◌≤◌, ◌<◌};
ghost use Rattle.bits.specs.Bits.{run};
ghost use Rattle.apdu.specs.Sizes.{bit, buffer_least, length_most};
ghost use Rattle.apdu.specs.Pdus.{content_in, items_in, lent, part_in};
ghost use Rattle.apdu.specs.Encoding.{content_bits, optional_bits, string_bits};
ghost use Rattle.apdu.specs.Writing.{Goes, RoomFor, Waits, data_fits, done, items_fit, part_fits, passed_most, place_of, run_fits, run_within, there, waiting, writable, write_out};

use crate::decoder::ALL;
use crate::shape::data_fits;
use crate::{Apdu, Data};
use fields::Lead;
use pdus::Span;
use words::Unwritten;

// The place after what was written. The writers below hand on the place and no Option: an enum that is handed on went through memory, and took 39 ns of 116
// in a message request (docs/DECISIONS.md, "A writer for each alternative").
pub(crate) fn place(p: Option<usize>) -> usize
    ensures { result ≡ place_of p }
{
    p.unwrap_or(0)
}

// Whether a value may be written to a buffer of so many bytes: a buffer under the least size comes first, then a value that is not right.
pub(crate) fn writable(bytes: usize, right: bool) -> Result<(), Unwritten>
    ensures { result ≡ writable bytes right }
{
    if bytes < Apdu::BUFFER {
        return Err(Unwritten::Room);
    }
    if !right {
        return Err(Unwritten::Shape);
    }
    Ok(())
}

// The presence bit of a part.
pub(crate) fn presence(p: Option<Span>) -> u64
    ensures { result ≡ there p }
{
    u64::from(p.is_some())
}

// A string behind a number that waits, its count and its items; the place after it.
pub(crate) fn put_items(
    buf: &mut [u8],
    at: usize,
    lead: Lead,
    unit: usize,
    src: &[u8],
    x: Span,
) -> usize
    requires { Waits 8 lead × (0 < unit) × (unit ≤ 64) × (items_fit (lent src.now) unit 0 length_most x ≡ true) × RoomFor buf.old at (waiting lead ++ string_bits unit (items_in (lent src.now) unit x)) }
    ensures { Goes buf.old buf.new at result (waiting lead ++ string_bits unit (items_in (lent src.now) unit x)) }
{
    place(fields::put_led_string(buf, ALL, at, lead, unit, x.count, src, ALL, x.at))
}

// The message, if it is there, and the check.
fn put_message(
    buf: &mut [u8],
    at: usize,
    lead: Lead,
    message: Option<Span>,
    msgs: &[u8],
    check: Span,
    checks: &[u8],
) -> usize
    requires { Waits 8 lead × (part_fits (lent msgs.now) bit 0 length_most message ≡ true) × (items_fit (lent checks.now) bit 0 length_most check ≡ true) × RoomFor buf.old at (waiting lead ++ (optional_bits bit (part_in (lent msgs.now) bit message) ++ string_bits bit (items_in (lent checks.now) bit check))) }
    ensures { Goes buf.old buf.new at result (waiting lead ++ (optional_bits bit (part_in (lent msgs.now) bit message) ++ string_bits bit (items_in (lent checks.now) bit check))) }
{
    match message {
        None => put_items(buf, at, lead, Data::BIT, checks, check),
        Some(x) => {
            let p = put_items(buf, at, lead, Data::BIT, msgs, x);
            put_items(buf, p, Lead::NONE, Data::BIT, checks, check)
        }
    }
}

// Message data behind a number that waits: the extension bit and the presence bits wait with it.
fn put_content(buf: &mut [u8], lead: Lead, d: Data, ids: &[u8], msgs: &[u8], checks: &[u8]) -> usize
    requires { Waits 5 lead × (data_fits (lent ids.now) (lent msgs.now) (lent checks.now) d ≡ true) × RoomFor buf.old 0 (waiting lead ++ content_bits (content_in (lent ids.now) (lent msgs.now) (lent checks.now) d)) }
    ensures { Goes buf.old buf.new 0 result (waiting lead ++ content_bits (content_in (lent ids.now) (lent msgs.now) (lent checks.now) d)) }
{
    let v = lead.number * 8 + (2 * presence(d.identifier) + presence(d.message));
    let front = Lead {
        width: lead.width + 3,
        number: v,
    };
    match d.identifier {
        None => put_message(buf, 0, front, d.message, msgs, d.check, checks),
        Some(x) => {
            let p = put_items(buf, 0, front, Data::OCTET, ids, x);
            put_message(buf, p, Lead::NONE, d.message, msgs, d.check, checks)
        }
    }
}

// Message data that fit, behind a number that waits, and the padding.
pub(crate) fn write_data(
    buf: &mut [u8],
    lead: Lead,
    d: Data,
    ids: &[u8],
    msgs: &[u8],
    checks: &[u8],
) -> Result<usize, Unwritten>
    requires { Waits 5 lead }
    ensures { done result buf.new ≡ write_out (data_fits (lent ids.now) (lent msgs.now) (lent checks.now) d) buf.old (waiting lead ++ content_bits (content_in (lent ids.now) (lent msgs.now) (lent checks.now) d)) }
{
    writable(buf.len(), data_fits(d, ids, msgs, checks))?;
    let n = put_content(buf, lead, d, ids, msgs, checks);
    bits::pad(buf, ALL, n);
    Ok(n)
}

// Message data by itself, as it is delivered to a user.
pub fn put_data(
    buf: &mut [u8],
    d: Data,
    ids: &[u8],
    msgs: &[u8],
    checks: &[u8],
) -> Result<usize, Unwritten>
    ensures { done result buf.new ≡ write_out (data_fits (lent ids.now) (lent msgs.now) (lent checks.now) d) buf.old (content_bits (content_in (lent ids.now) (lent msgs.now) (lent checks.now) d)) }
{
    write_data(buf, Lead::NONE, d, ids, msgs, checks)
}

// Whether lent bytes hold n bits at a place, at most so many.
#[tactic(auto, using(bits::proofs::Bytes::length_to), unfolding(crate::specs::Writing::run_within))]
fn run_within(most: usize, src: &[u8], at: usize, n: usize) -> bool
    ensures { result ≡ run_within most src.now at n }
{
    n <= most && bits::within(src.len(), ALL, at, n)
}

// The n bits at a place of lent bytes, by themselves.
fn copy_out(
    buf: &mut [u8],
    most: usize,
    src: &[u8],
    at: usize,
    n: usize,
) -> Result<usize, Unwritten>
    requires { most + 7 ≤ 8 * buffer_least }
    ensures { done result buf.new ≡ write_out (run_within most src.now at n) buf.old (run src.now at n) }
{
    writable(buf.len(), run_within(most, src, at, n))?;
    let p = place(bits::copy_bits(buf, ALL, 0, src, ALL, at, n));
    bits::pad(buf, ALL, p);
    Ok(p)
}

// A part of message data, where its reader found it.
pub fn put_run(buf: &mut [u8], src: &[u8], at: usize, n: usize) -> Result<usize, Unwritten>
    ensures { done result buf.new ≡ write_out (run_fits src.now at n) buf.old (run src.now at n) }
{
    copy_out(buf, Data::MESSAGE_MOST, src, at, n)
}

// Bits of an APDU that are passed on as they stand.
pub fn put_passed(buf: &mut [u8], src: &[u8], at: usize, n: usize) -> Result<usize, Unwritten>
    ensures { done result buf.new ≡ write_out (run_within passed_most src.now at n) buf.old (run src.now at n) }
{
    copy_out(buf, Apdu::PASSED_MOST, src, at, n)
}
