// A message read from its bits at any place.
ghost use Rattle.std.specs.Prelude.{◌≡◌};
ghost use Rattle.bits.specs.Bits.{bits_to};
ghost use Rattle.inner.specs.Messages.{body_at, count_at, exactly, message_at};

use crate::five::read_places;
use crate::header::read_header;
use crate::values::{Header, Message};
use fields::{Fault, Reading};
use kinds::Direction;

// The count of elements, behind the bit that says whether there is constrained data, which is not carried.
fn read_count_by_fields(s: &[u8], end: usize, at: usize) -> Reading<u64>
    ensures { result ≡ count_at (bits_to s.now end) at }
{
    let (constrained, p) = fields::whole(s, end, at, 0, 1)?;
    if constrained == 0 {
        return fields::whole(s, end, p, 1, 5);
    }
    fields::refused_at(at, Fault::NotCarried)
}

// The count and the bit before it: as one number where neither is refused, else field by field, which names the fault.
pub fn read_count(s: &[u8], end: usize, at: usize) -> Reading<u64>
    ensures { result ≡ count_at (bits_to s.now end) at }
{
    match bits::read_bits(s, end, at, Message::BETWEEN) {
        Some((v, next)) if v < Message::PLACES as u64 => Ok((v + 1, next)),
        _ => read_count_by_fields(s, end, at),
    }
}

// What follows the header.
#[tactic(auto, unfolding(crate::specs::Messages::body_at))]
fn read_body(
    direction: Direction,
    s: &[u8],
    end: usize,
    header: Header,
    at: usize,
) -> Reading<Message>
    ensures { result ≡ body_at direction (bits_to s.now end) header at }
{
    let (n, q) = read_count(s, end, at)?;
    let count = n as usize;
    let (places, next) = read_places(direction, s, end, q, count)?;
    Ok((
        Message {
            header,
            count,
            places,
        },
        next,
    ))
}

// The message at a place; what follows it is not looked at.
#[tactic(auto, unfolding(crate::specs::Messages::message_at))]
pub fn read_message(direction: Direction, s: &[u8], end: usize, at: usize) -> Reading<Message>
    ensures { result ≡ message_at direction (bits_to s.now end) at }
{
    let (header, next) = read_header(s, end, at)?;
    read_body(direction, s, end, header, next)
}

// A message and nothing after it, in the first `end` bits.
#[tactic(auto, unfolding(crate::specs::Messages::exactly))]
pub fn read_exactly(direction: Direction, s: &[u8], end: usize) -> Reading<Message>
    ensures { result ≡ exactly direction (bits_to s.now end) }
{
    let (message, next) = read_message(direction, s, end, 0)?;
    if bits::within(s.len(), end, next, 1) {
        return fields::refused_at(next, Fault::Tail);
    }
    Ok((message, next))
}
