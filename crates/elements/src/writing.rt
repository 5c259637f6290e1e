// Elements and their arguments written, piece after piece. A message is measured before it is written, so that none of these is refused
// then.
ghost use Rattle.std.specs.Prelude.{◌≡◌, ◌++◌};
ghost use Rattle.bits.specs.Put.{left};
ghost use Rattle.elements.specs.Writing.{argument_pieces, choice_piece, element_pieces_as, facility_pieces, level_pieces, level_type_pieces, number_pieces, put_pieces, sized_pieces, time_pieces};

use crate::arguments::{highest, lowest};
use crate::measuring::whole_bits;
use crate::numbers::{put_characters, put_numbers};
use crate::reading::last_of;
use crate::short::{short_argument, short_level};
use crate::values::{Element, Level, LevelType, Time};
use kinds::{ArgumentKind, Direction};

#[tactic(auto, unfolding(crate::specs::Writing::put_pieces, crate::specs::Writing::level_type_pieces))]
fn put_level_type(buf: &mut [u8], end: usize, at: usize, x: LevelType) -> Option<usize>
    ensures { left result buf.new ≡ put_pieces buf.old end at (level_type_pieces x) }
{
    let unit = x.unit as u64;
    let next = fields::put_whole(buf, end, at, 0, LevelType::LAST_UNIT, unit)?;
    fields::put_whole(buf, end, next, lowest(unit), highest(unit), x.number as u64)
}

#[tactic(auto, unfolding(crate::specs::Writing::put_pieces, crate::specs::Writing::time_pieces))]
fn put_time(buf: &mut [u8], end: usize, at: usize, x: Time) -> Option<usize>
    ensures { left result buf.new ≡ put_pieces buf.old end at (time_pieces x) }
{
    let next = fields::put_whole(buf, end, at, 0, Time::LAST_HOUR, x.hours as u64)?;
    fields::put_whole(buf, end, next, 0, Time::LAST_MINUTE, x.minutes as u64)
}

// The index of a CHOICE of two.
#[tactic(auto, unfolding(crate::specs::Writing::put_pieces))]
fn put_choice(buf: &mut [u8], end: usize, at: usize, second: bool) -> Option<usize>
    ensures { left result buf.new ≡ put_pieces buf.old end at (choice_piece second) }
{
    fields::put_whole(buf, end, at, 0, 1, if second { 1 } else { 0 })
}

#[tactic(auto, using(crate::proofs::Pieces::pieces_append), unfolding(crate::specs::Writing::put_pieces, crate::specs::Writing::level_pieces))]
fn put_level_by_fields(buf: &mut [u8], end: usize, at: usize, x: Level) -> Option<usize>
    ensures { left result buf.new ≡ put_pieces buf.old end at (level_pieces x) }
{
    let p = put_choice(buf, end, at, x.block)?;
    let q = put_level_type(buf, end, p, x.first)?;
    if x.block {
        return put_level_type(buf, end, q, x.second);
    }
    Some(q)
}

// A level: one that is no block as one number, of which the first bit is the index 0 of the CHOICE; else piece after piece.
fn put_level(buf: &mut [u8], end: usize, at: usize, x: Level) -> Option<usize>
    ensures { left result buf.new ≡ put_pieces buf.old end at (level_pieces x) }
{
    match short_level(x) {
        Some(short) if bits::within(buf.len(), end, at, short.bits) => {
            bits::put_bits(buf, end, at, short.bits, short.number)
        }
        _ => put_level_by_fields(buf, end, at, x),
    }
}

// A string of a size from least to most.
#[tactic(auto, unfolding(crate::specs::Writing::put_pieces, crate::specs::Writing::sized_pieces))]
fn put_sized(
    buf: &mut [u8],
    end: usize,
    at: usize,
    least: u64,
    most: u64,
    text: &[u8],
) -> Option<usize>
    ensures { left result buf.new ≡ put_pieces buf.old end at (sized_pieces least most text.now) }
{
    let next = fields::put_whole(buf, end, at, least, most, text.len() as u64)?;
    put_characters(buf, end, next, text)
}

// A facility: none has no characters.
#[tactic(auto, unfolding(crate::specs::Writing::put_pieces, crate::specs::Writing::facility_pieces))]
fn put_facility(buf: &mut [u8], end: usize, at: usize, text: &[u8]) -> Option<usize>
    ensures { left result buf.new ≡ put_pieces buf.old end at (facility_pieces text.now) }
{
    if text.is_empty() {
        return put_choice(buf, end, at, false);
    }
    let next = put_choice(buf, end, at, true)?;
    put_sized(
        buf,
        end,
        next,
        Element::DESIGNATION_LEAST,
        Element::DESIGNATION_MOST,
        text,
    )
}

#[tactic(auto, using(crate::proofs::Pieces::pieces_append))]
fn put_two_levels(buf: &mut [u8], end: usize, at: usize, x: Level, y: Level) -> Option<usize>
    ensures { left result buf.new ≡ put_pieces buf.old end at (level_pieces x ++ level_pieces y) }
{
    let next = put_level(buf, end, at, x)?;
    put_level(buf, end, next, y)
}

fn put_code(buf: &mut [u8], end: usize, at: usize, code: [u8; 4]) -> Option<usize>
    ensures { left result buf.new ≡ put_pieces buf.old end at (number_pieces 7 code) }
{
    put_numbers(buf, end, at, Element::LAST_DIGIT, &code)
}

// The argument of an element, whose characters are `text`.
#[tactic(auto, unfolding(bits::specs::Put::put_if, crate::specs::Writing::put_pieces, crate::specs::Writing::argument_pieces))]
fn put_argument(
    buf: &mut [u8],
    end: usize,
    at: usize,
    kind: ArgumentKind,
    e: Element,
    text: &[u8],
) -> Option<usize>
    ensures { left result buf.new ≡ put_pieces buf.old end at (argument_pieces kind e text.now) }
{
    match kind {
        ArgumentKind::NotCarried => None,
        ArgumentKind::None => Some(at),
        ArgumentKind::Level => put_level(buf, end, at, e.level),
        ArgumentKind::TwoLevels => put_two_levels(buf, end, at, e.level, e.other),
        ArgumentKind::Time => put_time(buf, end, at, e.time),
        ArgumentKind::Code => put_code(buf, end, at, e.code),
        ArgumentKind::FreeText => put_sized(
            buf,
            end,
            at,
            Element::FREE_TEXT_LEAST,
            Element::FREE_TEXT_MOST,
            text,
        ),
        ArgumentKind::Facility => put_facility(buf, end, at, text),
        ArgumentKind::FacilityDesignation => put_sized(
            buf,
            end,
            at,
            Element::DESIGNATION_LEAST,
            Element::DESIGNATION_MOST,
            text,
        ),
        ArgumentKind::AtisCode => put_numbers(buf, end, at, Element::LAST_CHARACTER, text),
    }
}

// An element with an argument of a kind, whose characters are `text`: index and argument, piece after piece.
#[tactic(auto, unfolding(crate::specs::Writing::put_pieces))]
fn put_element_by_pieces(
    buf: &mut [u8],
    end: usize,
    at: usize,
    direction: Direction,
    kind: ArgumentKind,
    e: Element,
    text: &[u8],
) -> Option<usize>
    ensures { left result buf.new ≡ put_pieces buf.old end at (element_pieces_as direction kind e text.now) }
{
    let next = fields::put_extensible_index(buf, end, at, last_of(direction), e.number as u64)?;
    put_argument(buf, end, next, kind, e, text)
}

// The same as one number where index and argument are one; else piece after piece.
pub fn put_element(
    buf: &mut [u8],
    end: usize,
    at: usize,
    direction: Direction,
    kind: ArgumentKind,
    e: Element,
    text: &[u8],
) -> Option<usize>
    ensures { left result buf.new ≡ put_pieces buf.old end at (element_pieces_as direction kind e text.now) }
{
    if let Some(short) = short_argument(kind, e) {
        let number = e.number as u64;
        let last = last_of(direction);
        let n = 1 + whole_bits(0, last) + short.bits;
        if number <= last && bits::within(buf.len(), end, at, n) {
            return bits::put_bits(buf, end, at, n, (number << short.bits) + short.number);
        }
    }
    put_element_by_pieces(buf, end, at, direction, kind, e, text)
}
