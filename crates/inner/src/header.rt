// The header of a message.
ghost use Rattle.std.specs.Prelude.{◌≡◌, ◌+◌, ◌-◌, ◌*◌, ◌/◌, ◌%◌, ◌<◌, eqb, leb};
ghost use Rattle.bits.specs.Bits.{bits_to};
ghost use Rattle.inner.specs.Headers.{acknowledgement_at, date_time_at, dated_at, header_at, reference_at, time_of_day_at};

use crate::measuring::header_fits;
use crate::values::{DateTime, Header};
use elements::arguments::read_time;
use elements::values::Time;
use fields::{Fault, Reading};

// The time that follows a date.
#[tactic(auto, unfolding(crate::specs::Headers::time_of_day_at))]
fn read_time_of_day(
    s: &[u8],
    end: usize,
    year: u16,
    month: u8,
    day: u8,
    at: usize,
) -> Reading<DateTime>
    ensures { result ≡ time_of_day_at (bits_to s.now end) year month day at }
{
    let (time, from) = read_time(s, end, at)?;
    let (seconds, next) = fields::whole(s, end, from, 0, DateTime::LAST_SECOND)?;
    Ok((
        DateTime {
            year,
            month,
            day,
            time,
            seconds: seconds as u8,
        },
        next,
    ))
}

#[tactic(auto, unfolding(crate::specs::Headers::date_time_at))]
fn read_date_time(s: &[u8], end: usize, at: usize) -> Reading<DateTime>
    ensures { result ≡ date_time_at (bits_to s.now end) at }
{
    let (year, p) = fields::whole(s, end, at, DateTime::FIRST_YEAR, DateTime::LAST_YEAR)?;
    let (month, q) = fields::whole(s, end, p, 1, DateTime::LAST_MONTH)?;
    let (day, r) = fields::whole(s, end, q, 1, DateTime::LAST_DAY)?;
    read_time_of_day(s, end, year as u16, month as u8, day as u8, r)
}

#[tactic(auto, unfolding(crate::specs::Headers::reference_at))]
fn read_reference(s: &[u8], end: usize, at: usize, present: bool) -> Reading<u64>
    ensures { result ≡ reference_at (bits_to s.now end) at present }
{
    if present {
        return fields::whole(s, end, at, 0, Header::LAST_NUMBER);
    }
    Ok((0, at))
}

// An acknowledgement that is present is required: its other value is the default.
#[tactic(auto, unfolding(crate::specs::Headers::acknowledgement_at))]
fn read_acknowledgement(s: &[u8], end: usize, at: usize, present: bool) -> Reading<u64>
    ensures { result ≡ acknowledgement_at (bits_to s.now end) at present }
{
    if present {
        let (v, next) = fields::whole(s, end, at, 0, 1)?;
        if v == 0 {
            return Ok((0, next));
        }
        return fields::refused_at(at, Fault::Default);
    }
    Ok((0, at))
}

// What follows the reference.
#[tactic(auto, unfolding(crate::specs::Headers::dated_at))]
fn read_dated(
    s: &[u8],
    end: usize,
    identification: u8,
    referenced: bool,
    reference: u8,
    acknowledged: bool,
    at: usize,
) -> Reading<Header>
    ensures { result ≡ dated_at (bits_to s.now end) identification referenced reference acknowledged at }
{
    let (dated, from) = read_date_time(s, end, at)?;
    let (_, next) = read_acknowledgement(s, end, from, acknowledged)?;
    Ok((
        Header {
            identification,
            referenced,
            reference,
            dated,
            acknowledged,
        },
        next,
    ))
}

// Field by field.
#[tactic(auto, unfolding(crate::specs::Headers::header_at))]
fn read_header_by_fields(s: &[u8], end: usize, at: usize) -> Reading<Header>
    ensures { result ≡ header_at (bits_to s.now end) at }
{
    let (present, p) = fields::whole(s, end, at, 0, 3)?;
    let (identification, q) = fields::whole(s, end, p, 0, Header::LAST_NUMBER)?;
    let referenced = 2 <= present;
    let (reference, r) = read_reference(s, end, q, referenced)?;
    read_dated(
        s,
        end,
        identification as u8,
        referenced,
        reference as u8,
        present % 2 == 1,
        r,
    )
}

// The header that 8 bits and the bits behind them say, without those of an acknowledgement; its numbers need not be of their types.
fn header_from(front: u64, w: u64) -> Header
    requires { (front < 256) × (w < 549755813888) }
    ensures { (result.referenced ≡ leb 2 (front / 64)) × (result.acknowledged ≡ eqb (front / 64 % 2) 1) × (result.identification ≡ front % 64)
        × (result.reference * 8589934592 + ((((((result.dated.year - 1996) * 16 + (result.dated.month - 1)) * 32 + (result.dated.day - 1)) * 32
        + result.dated.time.hours) * 64 + result.dated.time.minutes) * 64 + result.dated.seconds) ≡ w) }
{
    let minute = w / 64;
    let hour = minute / 64;
    let day = hour / 32;
    let month = day / 32;
    let year = month / 16;
    let reference = year / 128;
    let present = front / 64;
    Header {
        identification: (front % 64) as u8,
        referenced: 2 <= present,
        reference: (reference % 64) as u8,
        dated: DateTime {
            year: (DateTime::FIRST_YEAR + year % 128) as u16,
            month: (1 + month % 16) as u8,
            day: (1 + day % 32) as u8,
            time: Time {
                hours: (hour % 32) as u8,
                minutes: (minute % 64) as u8,
            },
            seconds: (w % 64) as u8,
        },
        acknowledged: present % 2 == 1,
    }
}

// A header: as two numbers where it is one, else field by field, which names the fault.
pub fn read_header(s: &[u8], end: usize, at: usize) -> Reading<Header>
    ensures { result ≡ header_at (bits_to s.now end) at }
{
    let Some((front, p)) = bits::read_bits(s, end, at, 8) else {
        return read_header_by_fields(s, end, at);
    };
    let present = front / 64;
    let n = 33 + 6 * (present / 2) + present % 2;
    let Some((v, next)) = bits::read_bits(s, end, p, n as usize) else {
        return read_header_by_fields(s, end, at);
    };
    if present % 2 == 1 {
        if v % 2 == 1 {
            return read_header_by_fields(s, end, at);
        }
        let h = header_from(front, v / 2);
        if header_fits(h) {
            return Ok((h, next));
        }
        return read_header_by_fields(s, end, at);
    }
    let h = header_from(front, v);
    if header_fits(h) {
        return Ok((h, next));
    }
    read_header_by_fields(s, end, at)
}
