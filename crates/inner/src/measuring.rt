// A header measured: whether it is one of its type, and how many bits it takes. It is measured before its first bit is written.
ghost use Rattle.std.specs.Prelude.{◌≡◌, Some, None, cond, length};
ghost use Rattle.fields.specs.Encodings.{whole_fits};
ghost use Rattle.elements.specs.Arguments.{flag as flag_of};
ghost use Rattle.inner.specs.Headers.{date_time_fits, header_bits, header_fits, reference_fits};

use crate::values::{DateTime, Header};
use elements::values::Time;

// Whether a whole number lies in a range.
#[tactic(auto, unfolding(fields::specs::Encodings::whole_fits))]
fn in_range(lo: u64, hi: u64, v: u64) -> bool
    ensures { result ≡ whole_fits lo hi v }
{
    lo <= v && v <= hi
}

#[tactic(auto, unfolding(crate::specs::Headers::date_time_fits, elements::specs::Arguments::time_fits))]
fn date_time_fits(x: DateTime) -> bool
    ensures { result ≡ date_time_fits x }
{
    in_range(DateTime::FIRST_YEAR, DateTime::LAST_YEAR, x.year as u64)
        && in_range(1, DateTime::LAST_MONTH, x.month as u64)
        && in_range(1, DateTime::LAST_DAY, x.day as u64)
        && in_range(0, Time::LAST_HOUR, x.time.hours as u64)
        && in_range(0, Time::LAST_MINUTE, x.time.minutes as u64)
        && in_range(0, DateTime::LAST_SECOND, x.seconds as u64)
}

// A header without a reference has zero for its number.
#[tactic(auto, unfolding(crate::specs::Headers::reference_fits))]
fn reference_fits(present: bool, n: u64) -> bool
    ensures { result ≡ reference_fits present n }
{
    if present {
        in_range(0, Header::LAST_NUMBER, n)
    } else {
        n == 0
    }
}

#[tactic(auto, unfolding(crate::specs::Headers::header_fits))]
pub(crate) fn header_fits(h: Header) -> bool
    ensures { result ≡ header_fits h }
{
    in_range(0, Header::LAST_NUMBER, h.identification as u64)
        && reference_fits(h.referenced, h.reference as u64)
        && date_time_fits(h.dated)
}

pub(crate) fn flag(b: bool) -> u64
    ensures { result ≡ flag_of b }
{
    u64::from(b)
}

// How many bits a header takes.
pub fn header_bits(h: Header) -> Option<usize>
    ensures { result ≡ cond (header_fits h) (Some (length (header_bits h))) None }
{
    if header_fits(h) {
        let optional = Header::REFERENCE_BITS * flag(h.referenced) + flag(h.acknowledged);
        return Some((Header::LEAST_BITS + optional) as usize);
    }
    None
}
