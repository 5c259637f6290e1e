// A header written. A message is measured before it is written, so that none of these is refused then.
ghost use Rattle.std.specs.Prelude.{◌≡◌, true, ◌++◌, ◌<◌};
ghost use Rattle.bits.specs.Bits.{num_of};
ghost use Rattle.bits.specs.Put.{left};
ghost use Rattle.fields.specs.Encodings.{whole_bits};
ghost use Rattle.elements.specs.Writing.{put_pieces};
ghost use Rattle.inner.specs.Headers.{date_time_bits, date_time_fits, header_bits, header_fits, presence, reference_bits};
ghost use Rattle.inner.specs.Writing.{acknowledgement_pieces, date_time_pieces, header_pieces, reference_pieces};

use crate::measuring::{flag, header_bits};
use crate::values::{DateTime, Header};
use elements::values::Time;

#[tactic(auto, unfolding(elements::specs::Writing::put_pieces, elements::specs::Writing::time_pieces, crate::specs::Writing::date_time_pieces))]
fn put_date_time(buf: &mut [u8], end: usize, at: usize, x: DateTime) -> Option<usize>
    ensures { left result buf.new ≡ put_pieces buf.old end at (date_time_pieces x) }
{
    let year = fields::put_whole(
        buf,
        end,
        at,
        DateTime::FIRST_YEAR,
        DateTime::LAST_YEAR,
        x.year as u64,
    )?;
    let month = fields::put_whole(buf, end, year, 1, DateTime::LAST_MONTH, x.month as u64)?;
    let day = fields::put_whole(buf, end, month, 1, DateTime::LAST_DAY, x.day as u64)?;
    let hours = fields::put_whole(buf, end, day, 0, Time::LAST_HOUR, x.time.hours as u64)?;
    let minutes = fields::put_whole(buf, end, hours, 0, Time::LAST_MINUTE, x.time.minutes as u64)?;
    fields::put_whole(
        buf,
        end,
        minutes,
        0,
        DateTime::LAST_SECOND,
        x.seconds as u64,
    )
}

#[tactic(auto, unfolding(elements::specs::Writing::put_pieces, crate::specs::Writing::reference_pieces))]
fn put_reference(buf: &mut [u8], end: usize, at: usize, present: bool, n: u64) -> Option<usize>
    ensures { left result buf.new ≡ put_pieces buf.old end at (reference_pieces present n) }
{
    if present {
        return fields::put_whole(buf, end, at, 0, Header::LAST_NUMBER, n);
    }
    Some(at)
}

// An acknowledgement that is not required is the default, and left out.
#[tactic(auto, unfolding(elements::specs::Writing::put_pieces, crate::specs::Writing::acknowledgement_pieces))]
fn put_acknowledgement(buf: &mut [u8], end: usize, at: usize, present: bool) -> Option<usize>
    ensures { left result buf.new ≡ put_pieces buf.old end at (acknowledgement_pieces present) }
{
    if present {
        return fields::put_whole(buf, end, at, 0, 1, 0);
    }
    Some(at)
}

#[tactic(auto, unfolding(elements::specs::Writing::put_pieces, crate::specs::Writing::header_pieces), using(elements::proofs::Pieces::pieces_append))]
fn put_header_by_fields(buf: &mut [u8], end: usize, at: usize, h: Header) -> Option<usize>
    ensures { left result buf.new ≡ put_pieces buf.old end at (header_pieces h) }
{
    let present = 2 * flag(h.referenced) + flag(h.acknowledged);
    let p = fields::put_whole(buf, end, at, 0, 3, present)?;
    let q = fields::put_whole(buf, end, p, 0, Header::LAST_NUMBER, h.identification as u64)?;
    let r = put_reference(buf, end, q, h.referenced, h.reference as u64)?;
    let dated = put_date_time(buf, end, r, h.dated)?;
    put_acknowledgement(buf, end, dated, h.acknowledged)
}

// The number that the bits of a date and time say: 7 bits of the year, 4, 5, 5, 6 and 6 of what follows it.
fn date_time_number(x: DateTime) -> u64
    requires { date_time_fits x ≡ true }
    ensures { result ≡ num_of (date_time_bits x) }
{
    let t = x.time;
    let month = (x.year as u64 - DateTime::FIRST_YEAR) * 16 + (x.month as u64 - 1);
    let hour = (month * 32 + (x.day as u64 - 1)) * 32 + t.hours as u64;
    (hour * 64 + t.minutes as u64) * 64 + x.seconds as u64
}

// The number that the bits before the date and time say: the presence bits, and 6 bits of each number.
fn front_number(h: Header) -> u64
    requires { header_fits h ≡ true }
    ensures { (result < 16384) × (result ≡ num_of (whole_bits 0 3 (presence h.referenced h.acknowledged)
        ++ whole_bits 0 63 h.identification ++ reference_bits h.referenced h.reference)) }
{
    let present = 2 * flag(h.referenced) + flag(h.acknowledged);
    let front = present * 64 + h.identification as u64;
    if h.referenced {
        return front * 64 + h.reference as u64;
    }
    front
}

// The number that the bits of a header say: 33 bits of the date and time behind the front, and a bit 0 for an acknowledgement.
fn header_number(h: Header) -> u64
    requires { header_fits h ≡ true }
    ensures { result ≡ num_of (header_bits h) }
{
    let dated = h.dated;
    let all = front_number(h) * 8589934592 + date_time_number(dated);
    if h.acknowledged {
        return all * 2;
    }
    all
}

// A header: as one number where it is of its type and has room, else piece after piece.
pub fn put_header(buf: &mut [u8], end: usize, at: usize, h: Header) -> Option<usize>
    ensures { left result buf.new ≡ put_pieces buf.old end at (header_pieces h) }
{
    match header_bits(h) {
        Some(n) if bits::within(buf.len(), end, at, n) => {
            bits::put_bits(buf, end, at, n, header_number(h))
        }
        _ => put_header_by_fields(buf, end, at, h),
    }
}
