// An element read from the bits of a message at any place.
ghost use Rattle.std.specs.Prelude.{◌≡◌};
ghost use Rattle.bits.specs.Bits.{bits_to};
ghost use Rattle.elements.specs.Arguments.{atis_at, designation_at, facility_at, free_text_at};
ghost use Rattle.elements.specs.OneElement.{argument_at, characters_of, code_argument, element_at, last_of, level_argument, time_argument, two_levels_argument};

use crate::arguments::{facility, read_code, read_level, read_time};
use crate::values::Element;
use fields::{Fault, Reading, refused_at};
use kinds::{ArgumentKind, Direction, kind_of};

#[tactic(auto, unfolding(crate::specs::OneElement::level_argument))]
fn level_argument(number: u8, s: &[u8], end: usize, at: usize) -> Reading<Element>
    ensures { result ≡ level_argument number (bits_to s.now end) at }
{
    let (level, next) = read_level(s, end, at)?;
    Ok((
        Element {
            number,
            level,
            ..Element::EMPTY
        },
        next,
    ))
}

#[tactic(auto, unfolding(crate::specs::OneElement::two_levels_argument))]
fn two_levels_argument(number: u8, s: &[u8], end: usize, at: usize) -> Reading<Element>
    ensures { result ≡ two_levels_argument number (bits_to s.now end) at }
{
    let (level, from) = read_level(s, end, at)?;
    let (other, next) = read_level(s, end, from)?;
    Ok((
        Element {
            number,
            level,
            other,
            ..Element::EMPTY
        },
        next,
    ))
}

#[tactic(auto, unfolding(crate::specs::OneElement::time_argument))]
fn time_argument(number: u8, s: &[u8], end: usize, at: usize) -> Reading<Element>
    ensures { result ≡ time_argument number (bits_to s.now end) at }
{
    let (time, next) = read_time(s, end, at)?;
    Ok((
        Element {
            number,
            time,
            ..Element::EMPTY
        },
        next,
    ))
}

#[tactic(auto, unfolding(crate::specs::OneElement::code_argument))]
fn code_argument(number: u8, s: &[u8], end: usize, at: usize) -> Reading<Element>
    ensures { result ≡ code_argument number (bits_to s.now end) at }
{
    let (code, next) = read_code(s, end, at)?;
    Ok((
        Element {
            number,
            code,
            ..Element::EMPTY
        },
        next,
    ))
}

// Characters that were read, at most 256.
fn characters(number: u8, count: Reading<u64>) -> Reading<Element>
    ensures { result ≡ characters_of number count }
{
    let (characters, next) = count?;
    Ok((
        Element {
            number,
            characters,
            ..Element::EMPTY
        },
        next,
    ))
}

// The argument of the element whose index stands at a place.
#[tactic(auto, unfolding(crate::specs::OneElement::argument_at))]
fn read_argument(
    kind: ArgumentKind,
    number: u8,
    index: usize,
    s: &[u8],
    end: usize,
    at: usize,
) -> Reading<Element>
    ensures { result ≡ argument_at kind number index (bits_to s.now end) at }
{
    match kind {
        ArgumentKind::NotCarried => refused_at(index, Fault::NotCarried),
        ArgumentKind::None => Ok((
            Element {
                number,
                ..Element::EMPTY
            },
            at,
        )),
        ArgumentKind::Level => level_argument(number, s, end, at),
        ArgumentKind::TwoLevels => two_levels_argument(number, s, end, at),
        ArgumentKind::Time => time_argument(number, s, end, at),
        ArgumentKind::Code => code_argument(number, s, end, at),
        ArgumentKind::FreeText => characters(
            number,
            fields::sized(
                s,
                end,
                at,
                Element::CHARACTER_BITS,
                Element::FREE_TEXT_LEAST,
                Element::FREE_TEXT_MOST,
            ),
        ),
        ArgumentKind::Facility => characters(number, facility(s, end, at)),
        ArgumentKind::FacilityDesignation => characters(
            number,
            fields::sized(
                s,
                end,
                at,
                Element::CHARACTER_BITS,
                Element::DESIGNATION_LEAST,
                Element::DESIGNATION_MOST,
            ),
        ),
        ArgumentKind::AtisCode => characters(
            number,
            fields::contents(s, end, at, Element::CHARACTER_BITS, 1),
        ),
    }
}

#[tactic(auto, unfolding(crate::specs::OneElement::last_of))]
pub(crate) fn last_of(direction: Direction) -> u64
    ensures { result ≡ last_of direction }
{
    match direction {
        Direction::Downlink => Direction::DOWNLINK_LAST,
        Direction::Uplink => Direction::UPLINK_LAST,
    }
}

#[tactic(auto, unfolding(crate::specs::OneElement::element_at))]
pub fn read_element(direction: Direction, s: &[u8], end: usize, at: usize) -> Reading<Element>
    ensures { result ≡ element_at direction (bits_to s.now end) at }
{
    let (i, next) = fields::extensible_index(s, end, at, last_of(direction))?;
    let number = i as u8;
    let kind = kind_of(direction, number);
    // The index stands behind the extension bit.
    read_argument(kind, number, at + 1, s, end, next)
}
