// Message data read: the extension bit, the presence bits, the fields that are there, and what a later edition added.
ghost use Rattle.std.specs.Prelude.{◌≡◌, ◌*◌, ◌≤◌};
ghost use Rattle.apdu.specs.Pdus.{lent};
ghost use Rattle.apdu.specs.Reading.{data_at, optional_at, part_at, parts_at, span_to, with_additions};

use crate::Data;
use crate::decoder::ALL;
use fields::Reading;
use pdus::Span;

// A field that is there, or not. (This, `parts_at`, `data_at` and `read_data` are inlined: what they answer is copied by each call that hands it
// on, and `peat_data_part` took up to 1.29 times the instructions for that.)
#[tactic(auto, unfolding(crate::specs::Reading::optional_at))]
#[inline(always)]
fn optional(s: &[u8], there: bool, at: usize, unit: usize, least: u64, most: u64) -> Reading<u64>
    ensures { result ≡ optional_at (lent s.now) there at unit least most }
{
    if there {
        return fields::string(s, ALL, at, unit, least, most);
    }
    Ok((0, at))
}

// n items that end at a place.
pub(crate) fn span_to(unit: usize, n: u64, next: usize) -> Span
    requires { unit * n ≤ next }
    ensures { result ≡ span_to unit n next }
{
    let count = n as usize;
    Span {
        at: next - unit * count,
        count,
    }
}

// The part that they are, if they are there.
#[tactic(auto, unfolding(crate::specs::Reading::part_at))]
fn part(there: bool, unit: usize, n: u64, next: usize) -> Option<Span>
    requires { unit * n ≤ next }
    ensures { result ≡ part_at there unit n next }
{
    if there {
        return Some(span_to(unit, n, next));
    }
    None
}

// The fields, of which the first two are there or not.
#[tactic(auto, unfolding(crate::specs::Reading::parts_within))]
#[inline(always)]
fn parts_at(s: &[u8], at: usize, identified: bool, messaged: bool) -> Reading<Data>
    ensures { result ≡ parts_at (lent s.now) at identified messaged }
{
    let (octets, p) = optional(
        s,
        identified,
        at,
        Data::OCTET,
        Data::IDENTIFIER_LEAST as u64,
        Data::IDENTIFIER_MOST as u64,
    )?;
    let (bits, q) = optional(s, messaged, p, Data::BIT, 0, Data::MESSAGE_MOST as u64)?;
    let (n, next) = fields::string(s, ALL, q, Data::BIT, 0, Data::CHECK_MOST as u64)?;
    let data = Data {
        identifier: part(identified, Data::OCTET, octets, p),
        message: part(messaged, Data::BIT, bits, q),
        check: span_to(Data::BIT, n, next),
    };
    Ok((data, next))
}

// Behind the fields: the additions from a later edition.
#[tactic(auto, unfolding(crate::specs::Reading::with_additions))]
fn with_additions(s: &[u8], parts: Reading<Data>) -> Reading<Data>
    ensures { result ≡ with_additions (lent s.now) parts }
{
    let (d, next) = parts?;
    let (_, after) = fields::additions(s, ALL, next)?;
    Ok((d, after))
}

#[tactic(auto, unfolding(crate::specs::Reading::data_within))]
#[inline(always)]
pub(crate) fn data_at(s: &[u8], at: usize) -> Reading<Data>
    ensures { result ≡ data_at (lent s.now) at }
{
    let (e, p) = fields::bit_field(s, ALL, at, 1)?;
    let (v, q) = fields::bit_field(s, ALL, p, 2)?;
    let parts = parts_at(s, q, 2 <= v, v % 2 == 1);
    if e == 0 {
        return parts;
    }
    with_additions(s, parts)
}
