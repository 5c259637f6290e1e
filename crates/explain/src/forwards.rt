// The fields of a forward message, and of the response to one.
use crate::messages::walk_body;
use crate::rows::row;
use apdu::{ALL, Data, Heading, Triple};
use editions::Edition;
use fields::{Reading, Refusal};
use kinds::Direction;

fn walk_three(
    rt: &impl Print,
    s: &[u8],
    at: usize,
    from: Triple,
    to: Triple,
    first: &[u8],
    second: &[u8],
    third: &[u8],
) -> Reading<u64> {
    let (_, p) = row(
        rt,
        first,
        at,
        fields::whole(s, ALL, at, from.first, to.first),
    )?;
    let (_, q) = row(
        rt,
        second,
        p,
        fields::whole(s, ALL, p, from.second, to.second),
    )?;
    row(rt, third, q, fields::whole(s, ALL, q, from.third, to.third))
}

// The count of the flight identification's characters, then they, seven bits each, as one field.
fn walk_flight(rt: &impl Print, s: &[u8], at: usize) -> Reading<u64> {
    let (n, p) = row(
        rt,
        b"count of characters",
        at,
        fields::whole(
            s,
            ALL,
            at,
            Heading::CHARACTERS_LEAST,
            Heading::CHARACTERS_MOST,
        ),
    )?;
    row(
        rt,
        b"characters",
        p,
        fields::contents(s, ALL, p, Heading::CHARACTER, n as usize),
    )
}

// The aircraft's address, and what the message's bits are.
fn walk_address(rt: &impl Print, s: &[u8], at: usize) -> Reading<u64> {
    let (_, p) = row(
        rt,
        b"address",
        at,
        fields::contents(s, ALL, at, Data::BIT, Heading::ADDRESS_BITS),
    )?;
    row(
        rt,
        b"direction",
        p,
        fields::whole(s, ALL, p, 0, Heading::DIRECTION_LAST),
    )
}

// What stands before the message.
fn walk_heading(rt: &impl Print, s: &[u8], at: usize) -> Reading<u64> {
    let (_, p) = walk_three(
        rt,
        s,
        at,
        Heading::DATE_FROM,
        Heading::DATE_TO,
        b"year",
        b"month",
        b"day",
    )?;
    let (_, q) = walk_three(
        rt,
        s,
        p,
        Heading::TIME_FROM,
        Heading::TIME_TO,
        b"hours",
        b"minutes",
        b"seconds",
    )?;
    let (_, r) = walk_flight(rt, s, q)?;
    walk_address(rt, s, r)
}

// The bits that are forwarded, with their length.
fn walk_forwarded(rt: &impl Print, s: &[u8], at: usize) -> Result<(), Refusal> {
    let (n, q) = row(
        rt,
        b"length of the message",
        at,
        fields::length_within(s, ALL, at, 0, Data::MESSAGE_MOST as u64),
    )?;
    row(
        rt,
        b"message",
        q,
        fields::contents(s, ALL, q, Data::BIT, n as usize),
    )?;
    Ok(())
}

// What the bits of a direction's number are.
fn direction_of(z: u64) -> Direction {
    if z == 0 {
        return Direction::Uplink;
    }
    Direction::Downlink
}

pub(crate) fn walk_forward(
    rt: &impl Print,
    s: &[u8],
    edition: Edition,
    at: usize,
) -> Result<(), Refusal> {
    let (z, p) = walk_heading(rt, s, at)?;
    match edition {
        Edition::Protected => walk_forwarded(rt, s, p),
        Edition::Plain => walk_body(rt, direction_of(z), s, ALL, p),
    }
}
