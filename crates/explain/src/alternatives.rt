// The fields of an APDU, and what its reader answers.
use crate::forwards::walk_forward;
use crate::messages::walk_message;
use crate::rows::{accepted, refused, row};
use apdu::{ALL, Apdu, Data};
use editions::Edition;
use fields::{Reading, Refusal};
use pdus::PduType;
use plain::sent_by;

// An index behind its extension bit.
fn walk_index(rt: &impl Print, s: &[u8], at: usize, name: &[u8], last: u64) -> Reading<u64> {
    let (_, p) = row(rt, b"extension bit", at, fields::extension_bit(s, ALL, at))?;
    row(rt, name, p, fields::whole(s, ALL, p, 0, last))
}

// A length, and the items that it counts.
fn walk_string(
    rt: &impl Print,
    s: &[u8],
    at: usize,
    name: &[u8],
    counted: &[u8],
    unit: usize,
    least: usize,
    most: usize,
) -> Reading<u64> {
    let (n, p) = row(
        rt,
        name,
        at,
        fields::length_within(s, ALL, at, least as u64, most as u64),
    )?;
    row(
        rt,
        counted,
        p,
        fields::contents(s, ALL, p, unit, n as usize),
    )
}

// An addition: its length in octets, and the octets, which are not looked at.
fn walk_addition(rt: &impl Print, s: &[u8], at: usize) -> Reading<u64> {
    let (n, p) = row(rt, b"length of an addition", at, fields::length(s, ALL, at))?;
    row(
        rt,
        b"addition",
        p,
        fields::contents(s, ALL, p, Data::OCTET, n as usize),
    )
}

// So many additions, one after the other.
fn walk_each(rt: &impl Print, s: &[u8], at: usize, count: u32) -> Result<(), Refusal> {
    let mut p = at;
    for _ in 0..count {
        let (_, next) = walk_addition(rt, s, p)?;
        p = next;
    }
    Ok(())
}

// What a later edition added: how many additions it has, which of them are there, and those.
fn walk_additions(rt: &impl Print, s: &[u8], at: usize) -> Result<(), Refusal> {
    let (n, p) = row(
        rt,
        b"count of additions",
        at,
        fields::addition_count(s, ALL, at),
    )?;
    let (v, q) = row(
        rt,
        b"presence of additions",
        p,
        fields::additions_there(s, ALL, p, n as usize),
    )?;
    walk_each(rt, s, q, v.count_ones())
}

// The check, which is always there, and what was added behind it.
fn walk_check(rt: &impl Print, s: &[u8], extended: bool, at: usize) -> Result<(), Refusal> {
    let (_, p) = walk_string(
        rt,
        s,
        at,
        b"length of the check",
        b"check",
        Data::BIT,
        0,
        Data::CHECK_MOST,
    )?;
    if extended {
        walk_additions(rt, s, p)?;
    }
    Ok(())
}

// What follows the identifier.
fn walk_opaque(
    rt: &impl Print,
    s: &[u8],
    extended: bool,
    there: bool,
    at: usize,
) -> Result<(), Refusal> {
    if there {
        let (_, p) = walk_string(
            rt,
            s,
            at,
            b"length of the message",
            b"message",
            Data::BIT,
            0,
            Data::MESSAGE_MOST,
        )?;
        return walk_check(rt, s, extended, p);
    }
    walk_check(rt, s, extended, at)
}

// Message data: the extension bit, the presence bits, the parts that are there, and what was added.
fn walk_data(rt: &impl Print, s: &[u8], at: usize) -> Result<(), Refusal> {
    let (e, p) = row(rt, b"extension bit", at, fields::bit_field(s, ALL, at, 1))?;
    let extended = 0 < e;
    let (v, q) = row(rt, b"presence bits", p, fields::bit_field(s, ALL, p, 2))?;
    let messaged = v % 2 == 1;
    if v < 2 {
        return walk_opaque(rt, s, extended, messaged, q);
    }
    let (_, r) = walk_string(
        rt,
        s,
        q,
        b"length of the identifier",
        b"identifier",
        Data::OCTET,
        Data::IDENTIFIER_LEAST,
        Data::IDENTIFIER_MOST,
    )?;
    walk_opaque(rt, s, extended, messaged, r)
}

// What a send holds: message data, or in type 2 a message in place.
fn walk_send(
    rt: &impl Print,
    s: &[u8],
    edition: Edition,
    pdus: PduType,
    at: usize,
) -> Result<(), Refusal> {
    match edition {
        Edition::Protected => walk_data(rt, s, at),
        Edition::Plain => walk_message(rt, sent_by(pdus), s, ALL, at),
    }
}

// A message in place, or none.
fn walk_perhaps(rt: &impl Print, s: &[u8], pdus: PduType, at: usize) -> Result<(), Refusal> {
    let (v, p) = row(rt, b"message or none", at, fields::bit_field(s, ALL, at, 1))?;
    if 0 < v {
        walk_message(rt, sent_by(pdus), s, ALL, p)?;
    }
    Ok(())
}

// What a start holds behind its mode.
fn walk_started(
    rt: &impl Print,
    s: &[u8],
    edition: Edition,
    pdus: PduType,
    at: usize,
) -> Result<(), Refusal> {
    match edition {
        Edition::Protected => walk_data(rt, s, at),
        Edition::Plain => walk_perhaps(rt, s, pdus, at),
    }
}

// A startdown has a mode, or leaves it out.
fn walk_start_down(rt: &impl Print, s: &[u8], edition: Edition, at: usize) -> Result<(), Refusal> {
    let (v, p) = row(
        rt,
        b"presence of the mode",
        at,
        fields::bit_field(s, ALL, at, 1),
    )?;
    if v == 0 {
        return walk_started(rt, s, edition, PduType::AircraftPdus, p);
    }
    let (m, q) = row(rt, b"mode", p, fields::whole(s, ALL, p, 0, Apdu::MODE_LAST))?;
    if 0 < m {
        walk_started(rt, s, edition, PduType::AircraftPdus, q)?;
    }
    Ok(())
}

fn walk_start(
    rt: &impl Print,
    s: &[u8],
    edition: Edition,
    pdus: PduType,
    at: usize,
) -> Result<(), Refusal> {
    match pdus {
        PduType::AircraftPdus => walk_start_down(rt, s, edition, at),
        PduType::GroundPdus => walk_started(rt, s, edition, PduType::GroundPdus, at),
    }
}

fn last_of(pdus: PduType) -> u64 {
    match pdus {
        PduType::AircraftPdus => 3,
        PduType::GroundPdus => 5,
    }
}

// The last reason of a user abort.
fn user_last(edition: Edition) -> u64 {
    match edition {
        Edition::Plain => 6,
        Edition::Protected => Apdu::USER_LAST,
    }
}

fn walk(rt: &impl Print, s: &[u8], edition: Edition, pdus: PduType) -> Result<(), Refusal> {
    let (i, p) = walk_index(rt, s, 0, b"alternative", last_of(pdus))?;
    match i {
        0 => {
            walk_index(rt, s, p, b"reason of the user", user_last(edition))?;
        }
        1 => {
            walk_index(rt, s, p, b"reason of the provider", Apdu::PROVIDER_LAST)?;
        }
        2 => walk_start(rt, s, edition, pdus, p)?,
        3 => walk_send(rt, s, edition, pdus, p)?,
        4 => walk_forward(rt, s, edition, p)?,
        5 => {
            walk_index(rt, s, p, b"result of the forward", Apdu::RESPONSE_LAST)?;
        }
        _ => {}
    }
    Ok(())
}

// What the walk meets is what the APDU's own reader answers.
pub(crate) fn explain_apdu(rt: &impl Print, s: &[u8], edition: Edition, pdus: PduType) {
    let _ = walk(rt, s, edition, pdus);
    match codec::read_apdu(edition, s, pdus) {
        Ok(_) => accepted(rt),
        Err(r) => refused(rt, r, s),
    }
}
