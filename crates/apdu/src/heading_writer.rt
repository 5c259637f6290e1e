// ATCForwardMessage written: what stands before the message's bits, field by field, then their count, if they stand behind one, and they themselves.
ghost use Rattle.std.specs.Prelude.{◌≡◌, true, ◌++◌};
ghost use Rattle.bits.specs.Put.{left, put_run};
ghost use Rattle.apdu.specs.Sizes.{all_bits, bit};
ghost use Rattle.apdu.specs.Headings.{aircraft_bits, heading_bits, heading_fits, triple_bits, triple_fits};
ghost use Rattle.apdu.specs.Pdus.{items_in, lent};
ghost use Rattle.apdu.specs.Encoding.{forward_bits};
ghost use Rattle.apdu.specs.InPlace.{forward_by};
ghost use Rattle.apdu.specs.Writing.{Goes, RoomFor, Waits, done, forward_fits, waiting, write_out};

use crate::data_writer::{place, put_items, writable};
use crate::decoder::ALL;
use crate::heading_shape::forward_fits;
use crate::{Data, Forward, Heading, Triple};
use fields::Lead;
use words::Unwritten;

// Three whole numbers in a row.
fn put_triple(buf: &mut [u8], at: usize, from: Triple, to: Triple, v: Triple) -> Option<usize>
    requires { (triple_fits from to v ≡ true) × RoomFor buf.old at (triple_bits from to v) }
    ensures { left result buf.new ≡ put_run buf.old all_bits at (triple_bits from to v) }
{
    let p = place(fields::put_whole(buf, ALL, at, from.first, to.first, v.first));
    let q = place(fields::put_whole(buf, ALL, p, from.second, to.second, v.second));
    fields::put_whole(buf, ALL, q, from.third, to.third, v.third)
}

// The aircraft, and which alternative of ForwardMessage follows.
fn put_aircraft(buf: &mut [u8], at: usize, h: Heading) -> Option<usize>
    requires { (heading_fits h ≡ true) × RoomFor buf.old at (aircraft_bits h) }
    ensures { left result buf.new ≡ put_run buf.old all_bits at (aircraft_bits h) }
{
    let n = h.characters;
    let p = place(fields::put_whole(
        buf,
        ALL,
        at,
        Heading::CHARACTERS_LEAST,
        Heading::CHARACTERS_MOST,
        n,
    ));
    let q = place(bits::put_bits(buf, ALL, p, Heading::CHARACTER * n as usize, h.flight));
    let t = place(bits::put_bits(buf, ALL, q, Heading::ADDRESS_BITS, h.address));
    fields::put_whole(buf, ALL, t, 0, Heading::DIRECTION_LAST, h.direction)
}

// What stands before the message.
pub(crate) fn put_heading(buf: &mut [u8], at: usize, h: Heading) -> Option<usize>
    requires { (heading_fits h ≡ true) × RoomFor buf.old at (heading_bits h) }
    ensures { left result buf.new ≡ put_run buf.old all_bits at (heading_bits h) }
{
    let p = place(put_triple(buf, at, Heading::DATE_FROM, Heading::DATE_TO, h.date));
    let q = place(put_triple(buf, p, Heading::TIME_FROM, Heading::TIME_TO, h.time));
    put_aircraft(buf, q, h)
}

// A forward message at a place, its message behind its count or in place.
fn put_forward_at(buf: &mut [u8], at: usize, counted: bool, f: Forward, msgs: &[u8]) -> usize
    requires { (forward_fits (lent msgs.now) f ≡ true) × RoomFor buf.old at (forward_by counted f.heading (items_in (lent msgs.now) bit f.message)) }
    ensures { Goes buf.old buf.new at result (forward_by counted f.heading (items_in (lent msgs.now) bit f.message)) }
{
    let message = f.message;
    let p = place(put_heading(buf, at, f.heading));
    if counted {
        return put_items(buf, p, Lead::NONE, Data::BIT, msgs, message);
    }
    place(bits::copy_bits(buf, ALL, p, msgs, ALL, message.at, message.count))
}

// One that fits, behind a number of a few bits, and the padding.
pub(crate) fn write_forward(
    buf: &mut [u8],
    lead: Lead,
    counted: bool,
    f: Forward,
    msgs: &[u8],
) -> Result<usize, Unwritten>
    requires { Waits 5 lead }
    ensures { done result buf.new ≡ write_out (forward_fits (lent msgs.now) f) buf.old (waiting lead ++ forward_by counted f.heading (items_in (lent msgs.now) bit f.message)) }
{
    writable(buf.len(), forward_fits(f, msgs))?;
    let p = place(bits::put_bits(buf, ALL, 0, lead.width, lead.number));
    let n = put_forward_at(buf, p, counted, f, msgs);
    bits::pad(buf, ALL, n);
    Ok(n)
}

// ATCForwardMessage by itself, as it is delivered to a user.
pub fn put_forward(buf: &mut [u8], f: Forward, msgs: &[u8]) -> Result<usize, Unwritten>
    ensures { done result buf.new ≡ write_out (forward_fits (lent msgs.now) f) buf.old (forward_bits f.heading (items_in (lent msgs.now) bit f.message)) }
{
    write_forward(buf, Lead::NONE, true, f, msgs)
}
