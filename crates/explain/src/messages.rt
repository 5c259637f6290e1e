// The fields of a CPDLC message, and what its reader answers.
use crate::rows::{accepted, refused, row, say};
use elements::values::{Element, LevelType, Time};
use fields::{Reading, Refusal};
use inner::message::read_exactly;
use inner::values::{DateTime, Header, Message};
use kinds::{ArgumentKind, Direction, kind_of};

fn whole(
    rt: &impl Print,
    s: &[u8],
    end: usize,
    at: usize,
    name: &[u8],
    lo: u64,
    hi: u64,
) -> Reading<u64> {
    row(rt, name, at, fields::whole(s, end, at, lo, hi))
}

// The range of a unit's numbers.
fn lowest(unit: u64) -> u64 {
    if unit < 4 {
        return LevelType::LOWEST[unit as usize];
    }
    0
}

fn highest(unit: u64) -> u64 {
    if unit < 4 {
        return LevelType::HIGHEST[unit as usize];
    }
    0
}

fn walk_level_type(rt: &impl Print, s: &[u8], end: usize, at: usize) -> Reading<u64> {
    let (unit, p) = whole(rt, s, end, at, b"unit", 0, LevelType::LAST_UNIT)?;
    whole(rt, s, end, p, b"level", lowest(unit), highest(unit))
}

fn walk_level(rt: &impl Print, s: &[u8], end: usize, at: usize) -> Reading<u64> {
    let (block, p) = whole(rt, s, end, at, b"level or block", 0, 1)?;
    let (level, q) = walk_level_type(rt, s, end, p)?;
    if block == 0 {
        return Ok((level, q));
    }
    walk_level_type(rt, s, end, q)
}

fn walk_two_levels(rt: &impl Print, s: &[u8], end: usize, at: usize) -> Reading<u64> {
    let (_, p) = walk_level(rt, s, end, at)?;
    walk_level(rt, s, end, p)
}

fn walk_time(rt: &impl Print, s: &[u8], end: usize, at: usize) -> Reading<u64> {
    let (_, p) = whole(rt, s, end, at, b"hours", 0, Time::LAST_HOUR)?;
    whole(rt, s, end, p, b"minutes", 0, Time::LAST_MINUTE)
}

fn walk_two_digits(rt: &impl Print, s: &[u8], end: usize, at: usize) -> Reading<u64> {
    let (_, p) = whole(rt, s, end, at, b"digit", 0, Element::LAST_DIGIT)?;
    whole(rt, s, end, p, b"digit", 0, Element::LAST_DIGIT)
}

fn walk_code(rt: &impl Print, s: &[u8], end: usize, at: usize) -> Reading<u64> {
    let (_, p) = walk_two_digits(rt, s, end, at)?;
    walk_two_digits(rt, s, end, p)
}

fn walk_text(
    rt: &impl Print,
    s: &[u8],
    end: usize,
    at: usize,
    least: u64,
    most: u64,
) -> Reading<u64> {
    let (n, p) = whole(rt, s, end, at, b"size of the text", least, most)?;
    row(
        rt,
        b"characters",
        p,
        fields::contents(s, end, p, Element::CHARACTER_BITS, n as usize),
    )
}

fn walk_designation(rt: &impl Print, s: &[u8], end: usize, at: usize) -> Reading<u64> {
    walk_text(
        rt,
        s,
        end,
        at,
        Element::DESIGNATION_LEAST,
        Element::DESIGNATION_MOST,
    )
}

fn walk_facility(rt: &impl Print, s: &[u8], end: usize, at: usize) -> Reading<u64> {
    let (designated, p) = whole(rt, s, end, at, b"facility or none", 0, 1)?;
    if designated == 0 {
        return Ok((designated, p));
    }
    walk_designation(rt, s, end, p)
}

// The argument; of an element that is not carried nothing more is read.
fn walk_argument(
    rt: &impl Print,
    kind: ArgumentKind,
    s: &[u8],
    end: usize,
    at: usize,
) -> Reading<u64> {
    match kind {
        ArgumentKind::NotCarried => fields::refused_at(at, fields::Fault::NotCarried),
        ArgumentKind::None => Ok((0, at)),
        ArgumentKind::Level => walk_level(rt, s, end, at),
        ArgumentKind::TwoLevels => walk_two_levels(rt, s, end, at),
        ArgumentKind::Time => walk_time(rt, s, end, at),
        ArgumentKind::Code => walk_code(rt, s, end, at),
        ArgumentKind::FreeText => walk_text(
            rt,
            s,
            end,
            at,
            Element::FREE_TEXT_LEAST,
            Element::FREE_TEXT_MOST,
        ),
        ArgumentKind::Facility => walk_facility(rt, s, end, at),
        ArgumentKind::FacilityDesignation => walk_designation(rt, s, end, at),
        ArgumentKind::AtisCode => row(
            rt,
            b"characters",
            at,
            fields::contents(s, end, at, Element::CHARACTER_BITS, 1),
        ),
    }
}

fn last_of(direction: Direction) -> u64 {
    match direction {
        Direction::Downlink => Direction::DOWNLINK_LAST,
        Direction::Uplink => Direction::UPLINK_LAST,
    }
}

fn walk_element(
    rt: &impl Print,
    direction: Direction,
    s: &[u8],
    end: usize,
    at: usize,
) -> Reading<u64> {
    let (_, p) = row(rt, b"extension bit", at, fields::extension_bit(s, end, at))?;
    let (i, q) = whole(rt, s, end, p, b"element", 0, last_of(direction))?;
    let kind = kind_of(direction, (i % 256) as u8);
    walk_argument(rt, kind, s, end, q)
}

fn walk_elements(
    rt: &impl Print,
    direction: Direction,
    s: &[u8],
    end: usize,
    at: usize,
    n: u64,
) -> Result<(), Refusal> {
    let mut p = at;
    for _ in 0..n {
        let (_, next) = walk_element(rt, direction, s, end, p)?;
        p = next;
    }
    Ok(())
}

// What follows the header.
pub(crate) fn walk_body(
    rt: &impl Print,
    direction: Direction,
    s: &[u8],
    end: usize,
    at: usize,
) -> Result<(), Refusal> {
    let (constrained, p) = whole(rt, s, end, at, b"presence of constrained data", 0, 1)?;
    if constrained == 0 {
        let (n, q) = whole(rt, s, end, p, b"count of elements", 1, 5)?;
        walk_elements(rt, direction, s, end, q, n)?;
    }
    Ok(())
}

fn walk_date(rt: &impl Print, s: &[u8], end: usize, at: usize) -> Reading<u64> {
    let (_, p) = whole(
        rt,
        s,
        end,
        at,
        b"year",
        DateTime::FIRST_YEAR,
        DateTime::LAST_YEAR,
    )?;
    let (_, q) = whole(rt, s, end, p, b"month", 1, DateTime::LAST_MONTH)?;
    whole(rt, s, end, q, b"day", 1, DateTime::LAST_DAY)
}

fn walk_date_time(rt: &impl Print, s: &[u8], end: usize, at: usize) -> Reading<u64> {
    let (_, p) = walk_date(rt, s, end, at)?;
    let (_, q) = walk_time(rt, s, end, p)?;
    whole(rt, s, end, q, b"seconds", 0, DateTime::LAST_SECOND)
}

// What follows the reference: date and time, the acknowledgement where it is present, and the body.
fn walk_dated(
    rt: &impl Print,
    direction: Direction,
    s: &[u8],
    end: usize,
    acknowledged: bool,
    at: usize,
) -> Result<(), Refusal> {
    let (_, p) = walk_date_time(rt, s, end, at)?;
    if acknowledged {
        let (v, q) = whole(rt, s, end, p, b"acknowledgement", 0, 1)?;
        if v == 0 {
            walk_body(rt, direction, s, end, q)?;
        }
        return Ok(());
    }
    walk_body(rt, direction, s, end, p)
}

// The message that begins at a place.
pub(crate) fn walk_message(
    rt: &impl Print,
    direction: Direction,
    s: &[u8],
    end: usize,
    at: usize,
) -> Result<(), Refusal> {
    let (v, p) = whole(rt, s, end, at, b"presence bits", 0, 3)?;
    let (_, q) = whole(rt, s, end, p, b"identification", 0, Header::LAST_NUMBER)?;
    if v < 2 {
        return walk_dated(rt, direction, s, end, v % 2 == 1, q);
    }
    let (_, r) = whole(rt, s, end, q, b"reference", 0, Header::LAST_NUMBER)?;
    walk_dated(rt, direction, s, end, v % 2 == 1, r)
}

// The first `count` bits, which a message may have and the bytes hold. What the walk meets is what the message's own reader answers.
pub(crate) fn explain_message(rt: &impl Print, s: &[u8], count: usize, direction: Direction) {
    if Message::BITS < count {
        say(rt, b"not read: a message has at most 16383 bits\n");
        return;
    }
    if s.len() < count.div_ceil(8) {
        say(rt, b"not read: more bits than the bytes hold\n");
        return;
    }
    let _ = walk_message(rt, direction, s, count, 0);
    match read_exactly(direction, s, count) {
        Ok(_) => accepted(rt),
        Err(r) => refused(rt, r, s),
    }
}
