// APDUs whose contents stand in place, with no count before them: application type 2. Whether the bits are a message is not asked here.
ghost use Rattle.std.specs.Prelude.{◌≡◌, true, ◌&&◌, ◌++◌};
ghost use Rattle.fields.specs.Encodings.{index_bits, whole_fits};
ghost use Rattle.apdu.specs.Sizes.{bit, message_most};
ghost use Rattle.apdu.specs.Pdus.{lent, part_in};
ghost use Rattle.apdu.specs.Encoding.{alternative, mode_bits, mode_fits};
ghost use Rattle.apdu.specs.InPlace.{bits_in, perhaps_bits};
ghost use Rattle.apdu.specs.Writing.{Goes, RoomFor, Waits, data_fits, done, part_fits, waiting, write_out};

use crate::data_writer::{place, presence, writable};
use crate::decoder::ALL;
use crate::encoder::{put_choice, send_front, start_front};
use crate::shape::{data_fits, mode_fits};
use crate::{Data, Kind};
use fields::Lead;
use pdus::{PduType, Span};
use words::Unwritten;

// A message behind a number of a few bits, or that number alone; the place after it.
fn put_message_in_place(buf: &mut [u8], lead: Lead, message: Option<Span>, msgs: &[u8]) -> usize
    requires { Waits 6 lead × (part_fits (lent msgs.now) bit 0 message_most message ≡ true) × RoomFor buf.old 0 (waiting lead ++ bits_in (part_in (lent msgs.now) bit message)) }
    ensures { Goes buf.old buf.new 0 result (waiting lead ++ bits_in (part_in (lent msgs.now) bit message)) }
{
    match message {
        None => place(bits::put_bits(buf, ALL, 0, lead.width, lead.number)),
        Some(x) => place(bits::put_led(
            buf,
            ALL,
            0,
            lead.width,
            lead.number,
            msgs,
            ALL,
            x.at,
            x.count,
        )),
    }
}

// The message of data that fit, behind a number of a few bits, and the padding.
fn write_in_place(
    buf: &mut [u8],
    lead: Lead,
    d: Data,
    ids: &[u8],
    msgs: &[u8],
    checks: &[u8],
) -> Result<usize, Unwritten>
    requires { Waits 6 lead }
    ensures { done result buf.new ≡ write_out (data_fits (lent ids.now) (lent msgs.now) (lent checks.now) d) buf.old (waiting lead ++ bits_in (part_in (lent msgs.now) bit d.message)) }
{
    writable(buf.len(), data_fits(d, ids, msgs, checks))?;
    let n = put_message_in_place(buf, lead, d.message, msgs);
    bits::pad(buf, ALL, n);
    Ok(n)
}

pub fn put_send_in_place(
    buf: &mut [u8],
    pdus: PduType,
    d: Data,
    ids: &[u8],
    msgs: &[u8],
    checks: &[u8],
) -> Result<usize, Unwritten>
    ensures { done result buf.new ≡ write_out (data_fits (lent ids.now) (lent msgs.now) (lent checks.now) d) buf.old (alternative pdus Kind.Send ++ bits_in (part_in (lent msgs.now) bit d.message)) }
{
    write_in_place(buf, send_front(pdus), d, ids, msgs, checks)
}

pub fn put_start_in_place(
    buf: &mut [u8],
    pdus: PduType,
    m: u64,
    d: Data,
    ids: &[u8],
    msgs: &[u8],
    checks: &[u8],
) -> Result<usize, Unwritten>
    ensures { done result buf.new ≡ write_out (mode_fits pdus m && data_fits (lent ids.now) (lent msgs.now) (lent checks.now) d) buf.old (alternative pdus Kind.Start ++ (mode_bits pdus m ++ perhaps_bits (part_in (lent msgs.now) bit d.message))) }
{
    writable(buf.len(), mode_fits(pdus, m))?;
    let front = start_front(pdus, m);
    let number = front.number * 2 + presence(d.message);
    let lead = Lead {
        width: front.width + 1,
        number,
    };
    write_in_place(buf, lead, d, ids, msgs, checks)
}

// A user abort whose last reason is another than type 22's.
pub fn put_abort_within(
    buf: &mut [u8],
    pdus: PduType,
    last: u64,
    reason: u64,
) -> Result<usize, Unwritten>
    ensures { done result buf.new ≡ write_out (whole_fits 0 last reason) buf.old (alternative pdus Kind.AbortUser ++ index_bits last reason) }
{
    put_choice(buf, pdus, Kind::AbortUser, last, reason)
}
