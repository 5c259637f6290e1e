// Where message data of type 2 stand in lent bytes.
ghost use Rattle.std.specs.Prelude.{◌≡◌};
ghost use Rattle.apdu.specs.Pdus.{lent};
ghost use Rattle.plain.specs.Plain.{direction_of, forward_at, message_there, no_message, send_at, sent_by, start_at, whole_forward};

use apdu::{ALL, Data, Forward};
use fields::Reading;
use inplace::{elements_span, message_span};
use kinds::Direction;
use pdus::{PduType, Span};

// AircraftPDUs hold downlink messages, GroundPDUs uplink messages.
pub fn sent_by(pdus: PduType) -> Direction
    ensures { result ≡ sent_by pdus }
{
    match pdus {
        PduType::AircraftPdus => Direction::Downlink,
        PduType::GroundPdus => Direction::Uplink,
    }
}

pub(crate) fn direction_of(index: u64) -> Direction
    ensures { result ≡ direction_of index }
{
    if index == 0 {
        return Direction::Uplink;
    }
    Direction::Downlink
}

fn no_message() -> Data
    ensures { result ≡ no_message }
{
    Data {
        identifier: None,
        message: None,
        check: Span { at: 0, count: 0 },
    }
}

fn message_there(at: usize, count: usize) -> Data
    ensures { result ≡ message_there at count }
{
    Data {
        identifier: None,
        message: Some(Span { at, count }),
        check: Span { at: 0, count: 0 },
    }
}

// A message in place.
#[tactic(auto, unfolding(crate::specs::Plain::send_at))]
pub fn send_at(direction: Direction, s: &[u8], at: usize) -> Reading<Data>
    ensures { result ≡ send_at direction (lent s.now) at }
{
    let (n, next) = message_span(direction, s, ALL, at)?;
    Ok((message_there(at, n as usize), next))
}

// A message in place, or none.
#[tactic(auto, unfolding(crate::specs::Plain::start_at))]
pub fn start_at(direction: Direction, s: &[u8], at: usize) -> Reading<Data>
    ensures { result ≡ start_at direction (lent s.now) at }
{
    let (i, p) = fields::bit_field(s, ALL, at, 1)?;
    if i == 0 {
        return Ok((no_message(), p));
    }
    send_at(direction, s, p)
}

// A heading, and the elements of its direction in place.
#[tactic(auto, unfolding(crate::specs::Plain::forward_at))]
pub fn forward_at(s: &[u8], at: usize) -> Reading<Forward>
    ensures { result ≡ forward_at (lent s.now) at }
{
    let (h, p) = apdu::heading_at(s, at)?;
    let (n, next) = elements_span(direction_of(h.direction), s, ALL, p)?;
    let message = Span {
        at: p,
        count: n as usize,
    };
    Ok((
        Forward {
            heading: h,
            message,
        },
        next,
    ))
}

// A forward message by itself, as it is delivered to a user.
#[tactic(auto, unfolding(crate::specs::Plain::whole_forward))]
pub fn read_forward(s: &[u8]) -> Reading<Forward>
    ensures { result ≡ whole_forward (lent s.now) }
{
    let (f, next) = forward_at(s, 0)?;
    apdu::tail(s, next)?;
    Ok((f, next))
}
