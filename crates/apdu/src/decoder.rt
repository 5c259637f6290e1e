// An APDU read: the leading fields, then the rest, then the tail.
ghost use Rattle.std.specs.Prelude.{◌≡◌, ◌-◌, ◌%◌};
ghost use Rattle.apdu.specs.Pdus.{lent};
ghost use Rattle.apdu.specs.Encoding.{padding as paddingOf};
ghost use Rattle.apdu.specs.Reading.{apdu_at, ended_at, rest_at, tail_at, whole_data, whole_forward};

use crate::headings::forward_at;
use crate::leading::leading_at;
use crate::parts::data_at;
use crate::{Apdu, Data, Forward, Kind};
use fields::{Fault, Reading, Refusal};
use pdus::PduType;

// The end of lent bytes: as many bits as a count can say, so all of them.
pub const ALL: usize = 18446744073709551615;

// How many bits follow n bits up to a whole byte.
pub(crate) fn padding(n: usize) -> usize
    ensures { result ≡ paddingOf n }
{
    (8 - n % 8) % 8
}

// The padding after the last field: zeros, and nothing follows it. The first padding bit that is 1 stands as far before the padding's end as its
// number has digits.
#[tactic(auto, using(bits::proofs::Bytes::length_to), unfolding(crate::specs::Reading::tail_at))]
pub fn tail(s: &[u8], at: usize) -> Reading<u64>
    ensures { result ≡ tail_at (lent s.now) at }
{
    let (v, next) = fields::bit_field(s, ALL, at, padding(at))?;
    if v == 0 {
        if bits::within(s.len(), ALL, next, 1) {
            return fields::refused_at(next, Fault::Tail);
        }
        return Ok((0, next));
    }
    fields::refused_at(next - fields::width(v), Fault::Tail)
}

// An APDU whose last field ends at a place.
#[tactic(auto, unfolding(crate::specs::Reading::ended_at))]
pub fn ended(s: &[u8], at: usize, a: Apdu) -> Result<Apdu, Refusal>
    ensures { result ≡ ended_at (lent s.now) at a }
{
    tail(s, at)?;
    Ok(a)
}

// What follows the leading fields.
#[tactic(auto, unfolding(crate::specs::Reading::rest_within))]
pub fn rest_at(s: &[u8], kind: Kind, mode: u64, at: usize) -> Result<Apdu, Refusal>
    ensures { result ≡ rest_at (lent s.now) kind mode at }
{
    match kind {
        Kind::AbortUser => {
            let (r, next) = fields::extensible_index(s, ALL, at, Apdu::USER_LAST)?;
            ended(s, next, Apdu::AbortUser(r))
        }
        Kind::AbortProvider => {
            let (r, next) = fields::extensible_index(s, ALL, at, Apdu::PROVIDER_LAST)?;
            ended(s, next, Apdu::AbortProvider(r))
        }
        Kind::Start => {
            let (d, next) = data_at(s, at)?;
            ended(s, next, Apdu::Start(mode, d))
        }
        Kind::Send => {
            let (d, next) = data_at(s, at)?;
            ended(s, next, Apdu::Send(d))
        }
        Kind::Forward => {
            let (f, next) = forward_at(s, at)?;
            ended(s, next, Apdu::Forward(f))
        }
        Kind::ForwardResponse => {
            let (r, next) = fields::extensible_index(s, ALL, at, Apdu::RESPONSE_LAST)?;
            ended(s, next, Apdu::ForwardResponse(r))
        }
    }
}

// The APDU that begins at a place and ends with the lent bytes.
#[tactic(auto, unfolding(crate::specs::Reading::apdu_within))]
pub(crate) fn apdu_at(s: &[u8], at: usize, pdus: PduType) -> Result<Apdu, Refusal>
    ensures { result ≡ apdu_at pdus (lent s.now) at }
{
    let ((kind, mode), next) = leading_at(s, at, pdus)?;
    rest_at(s, kind, mode, next)
}

// Message data by itself, as it is delivered to a user: the lent bytes hold nothing else. (Inlined, as `parts_at` is.)
#[tactic(auto, unfolding(crate::specs::Reading::whole_within))]
#[inline(always)]
pub fn read_data(s: &[u8]) -> Reading<Data>
    ensures { result ≡ whole_data (lent s.now) }
{
    let (d, next) = data_at(s, 0)?;
    tail(s, next)?;
    Ok((d, next))
}

// ATCForwardMessage by itself, as it is delivered to a user.
#[tactic(auto, unfolding(crate::specs::Reading::whole_forward_within))]
pub fn read_forward(s: &[u8]) -> Reading<Forward>
    ensures { result ≡ whole_forward (lent s.now) }
{
    let (f, next) = forward_at(s, 0)?;
    tail(s, next)?;
    Ok((f, next))
}
