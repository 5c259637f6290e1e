// The leading fields: the alternative, and the mode of a start.
ghost use Rattle.std.specs.Prelude.{◌≡◌};
ghost use Rattle.apdu.specs.Pdus.{index_of, kind_of, last_of, lent};
ghost use Rattle.apdu.specs.Reading.{kind_mode, leading_at, mode_at, mode_value};

use crate::decoder::ALL;
use crate::{Apdu, Kind};
use fields::{Fault, Reading};
use pdus::PduType;

// The last alternative of the type.
pub(crate) fn last_of(pdus: PduType) -> u64
    ensures { result ≡ last_of pdus }
{
    match pdus {
        PduType::AircraftPdus => 3,
        PduType::GroundPdus => 5,
    }
}

// The alternatives by their tags.
fn kind_of(i: u64) -> Kind
    ensures { result ≡ kind_of i }
{
    match i {
        0 => Kind::AbortUser,
        1 => Kind::AbortProvider,
        2 => Kind::Start,
        3 => Kind::Send,
        4 => Kind::Forward,
        _ => Kind::ForwardResponse,
    }
}

pub(crate) fn index_of(kind: Kind) -> u64
    ensures { result ≡ index_of kind }
{
    kind as u64
}

// A mode that is present: not its default.
#[tactic(auto, unfolding(crate::specs::Reading::mode_value))]
fn mode_value(s: &[u8], at: usize) -> Reading<u64>
    ensures { result ≡ mode_value (lent s.now) at }
{
    let (m, next) = fields::whole(s, ALL, at, 0, Apdu::MODE_LAST)?;
    if m == 0 {
        return fields::refused_at(at, Fault::Default);
    }
    Ok((m, next))
}

// The presence bit of StartDownMessage, and its mode.
#[tactic(auto, unfolding(crate::specs::Reading::mode_at))]
fn down_mode(s: &[u8], at: usize) -> Reading<u64>
    ensures { result ≡ mode_at PduType.AircraftPdus (lent s.now) at }
{
    let (p, next) = fields::bit_field(s, ALL, at, 1)?;
    if p == 0 {
        return Ok((0, next));
    }
    mode_value(s, next)
}

#[tactic(auto, unfolding(crate::specs::Reading::mode_at))]
fn mode_at(s: &[u8], pdus: PduType, at: usize) -> Reading<u64>
    ensures { result ≡ mode_at pdus (lent s.now) at }
{
    match pdus {
        PduType::AircraftPdus => down_mode(s, at),
        PduType::GroundPdus => Ok((0, at)),
    }
}

// The mode, where the alternative has one.
#[tactic(auto, unfolding(crate::specs::Reading::kind_mode))]
fn kind_mode(s: &[u8], pdus: PduType, kind: Kind, at: usize) -> Reading<u64>
    ensures { result ≡ kind_mode pdus (lent s.now) kind at }
{
    match kind {
        Kind::Start => mode_at(s, pdus, at),
        _ => Ok((0, at)),
    }
}

#[tactic(auto, unfolding(crate::specs::Reading::leading_at))]
pub fn leading_at(s: &[u8], at: usize, pdus: PduType) -> Reading<(Kind, u64)>
    ensures { result ≡ leading_at pdus (lent s.now) at }
{
    let (i, p) = fields::extensible_index(s, ALL, at, last_of(pdus))?;
    let kind = kind_of(i);
    let (m, q) = kind_mode(s, pdus, kind, p)?;
    Ok(((kind, m), q))
}
