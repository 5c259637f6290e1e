// An element measured: whether it is one of its type, and how many bits it takes. It is measured before it is written.
ghost use Rattle.std.specs.Prelude.{◌≡◌, leb, ◌&&◌, cond, ◌≤◌, ◌-◌, length, None, Some};
ghost use Rattle.fields.specs.Encodings.{whole_fits};
ghost use Rattle.fields.specs.Fields.{width_of};
ghost use Rattle.elements.specs.Arguments.{level_bits, level_type_bits, sized_bits, sized_fits};
ghost use Rattle.elements.specs.Measuring.{code_fits_use, level_fits_use, text_fits_kind, time_fits_use, type_fits_use, uses_of};
ghost use Rattle.elements.specs.OneElement.{argument_bits, argument_fits, element_bits_as, element_fits_as};

use crate::arguments::{highest, lowest};
use crate::numbers::all_most;
use crate::reading::last_of;
use crate::values::{Element, Level, LevelType, Time};
use kinds::{ArgumentKind, Direction};

fn fits(lo: u64, hi: u64, v: u64) -> bool
    ensures { result ≡ whole_fits lo hi v }
{
    lo <= v && v <= hi
}

// A part that is used is of its type, and one that is not is zero.
#[tactic(auto, unfolding(crate::specs::Arguments::level_type_fits, crate::specs::Measuring::type_fits_use))]
pub(crate) fn type_fits_use(used: bool, x: LevelType) -> bool
    ensures { result ≡ type_fits_use used x }
{
    let unit = x.unit as u64;
    if used {
        return fits(0, LevelType::LAST_UNIT, unit)
            && fits(lowest(unit), highest(unit), x.number as u64);
    }
    x == LevelType::EMPTY
}

#[tactic(auto, unfolding(crate::specs::Arguments::level_fits, crate::specs::OneElement::level_unused, crate::specs::Measuring::type_fits_use, crate::specs::Measuring::level_fits_use))]
fn level_fits_use(used: bool, x: Level) -> bool
    ensures { result ≡ level_fits_use used x }
{
    if used {
        return type_fits_use(true, x.first) && type_fits_use(x.block, x.second);
    }
    x == Level::EMPTY
}

#[tactic(auto, unfolding(crate::specs::Arguments::time_fits, crate::specs::OneElement::time_unused, crate::specs::Measuring::time_fits_use))]
pub(crate) fn time_fits_use(used: bool, x: Time) -> bool
    ensures { result ≡ time_fits_use used x }
{
    if used {
        return fits(0, Time::LAST_HOUR, x.hours as u64)
            && fits(0, Time::LAST_MINUTE, x.minutes as u64);
    }
    x == Time::EMPTY
}

#[tactic(auto, using(crate::proofs::Measured::code_used, crate::proofs::Measured::code_unused_is))]
fn code_fits_use(used: bool, x: [u8; 4]) -> bool
    ensures { result ≡ code_fits_use used x }
{
    all_most(if used { Element::LAST_DIGIT } else { 0 }, &x)
}

#[tactic(auto, using(crate::proofs::Measured::characters_most_is), unfolding(crate::specs::Arguments::sized_fits))]
fn sized_fits(least: u64, most: u64, text: &[u8]) -> bool
    ensures { result ≡ sized_fits least most text.now }
{
    fits(least, most, text.len() as u64) && all_most(Element::LAST_CHARACTER, text)
}

#[tactic(auto, using(crate::proofs::Measured::no_facility_fits, crate::proofs::Measured::facility_fits_by, crate::proofs::Measured::atis_fits_by, crate::proofs::Measured::no_atis_fits), unfolding(crate::specs::Measuring::text_fits_kind))]
fn text_fits_kind(kind: ArgumentKind, text: &[u8]) -> bool
    ensures { result ≡ text_fits_kind kind text.now }
{
    match kind {
        ArgumentKind::NotCarried => false,
        ArgumentKind::None
        | ArgumentKind::Level
        | ArgumentKind::TwoLevels
        | ArgumentKind::Time
        | ArgumentKind::Code => text.is_empty(),
        ArgumentKind::FreeText => sized_fits(
            Element::FREE_TEXT_LEAST,
            Element::FREE_TEXT_MOST,
            text,
        ),
        ArgumentKind::Facility => {
            text.is_empty()
                || sized_fits(Element::DESIGNATION_LEAST, Element::DESIGNATION_MOST, text)
        }
        ArgumentKind::FacilityDesignation => {
            sized_fits(Element::DESIGNATION_LEAST, Element::DESIGNATION_MOST, text)
        }
        ArgumentKind::AtisCode => text.len() == 1 && all_most(Element::LAST_CHARACTER, text),
    }
}

// What a kind uses besides characters: how many levels, a time, a code.
#[derive(Drop)]
struct Uses {
    levels: u8,
    time: bool,
    code: bool,
}

impl Uses {
    const NOTHING: Uses = Uses {
        levels: 0,
        time: false,
        code: false,
    };

    const LEVEL: Uses = Uses {
        levels: 1,
        time: false,
        code: false,
    };

    const TWO_LEVELS: Uses = Uses {
        levels: 2,
        time: false,
        code: false,
    };

    const TIME: Uses = Uses {
        levels: 0,
        time: true,
        code: false,
    };

    const CODE: Uses = Uses {
        levels: 0,
        time: false,
        code: true,
    };
}

#[tactic(auto, unfolding(crate::specs::Measuring::uses_of))]
fn used_by(kind: ArgumentKind) -> Uses
    ensures { result ≡ uses_of kind }
{
    match kind {
        ArgumentKind::Level => Uses::LEVEL,
        ArgumentKind::TwoLevels => Uses::TWO_LEVELS,
        ArgumentKind::Time => Uses::TIME,
        ArgumentKind::Code => Uses::CODE,
        ArgumentKind::NotCarried
        | ArgumentKind::None
        | ArgumentKind::FreeText
        | ArgumentKind::Facility
        | ArgumentKind::FacilityDesignation
        | ArgumentKind::AtisCode => Uses::NOTHING,
    }
}

fn levels_fit(used: u8, e: Element) -> bool
    ensures { result ≡ level_fits_use (leb 1 used) e.level && level_fits_use (leb 2 used) e.other }
{
    level_fits_use(1 <= used, e.level) && level_fits_use(2 <= used, e.other)
}

fn parts_fit(used: Uses, e: Element) -> bool
    ensures { result ≡ level_fits_use (leb 1 used.levels) e.level && level_fits_use (leb 2 used.levels) e.other
        && time_fits_use used.time e.time && code_fits_use used.code e.code }
{
    levels_fit(used.levels, e)
        && time_fits_use(used.time, e.time)
        && code_fits_use(used.code, e.code)
}

// What the kind uses is of its type, and what it does not use is zero.
#[tactic(auto, using(crate::proofs::Measured::argument_parts))]
fn argument_fits(kind: ArgumentKind, e: Element, text: &[u8]) -> bool
    ensures { result ≡ argument_fits kind e text.now }
{
    parts_fit(used_by(kind), e) && text_fits_kind(kind, text)
}

// How many bits a whole number from lo to hi takes.
pub(crate) fn whole_bits(lo: u64, hi: u64) -> usize
    ensures { result ≡ width_of (hi - lo) }
{
    fields::width(hi.saturating_sub(lo))
}

#[tactic(auto, using(crate::proofs::Measured::level_type_by, crate::proofs::Measured::width_small))]
fn level_type_bits(x: LevelType) -> usize
    ensures { result ≡ length (level_type_bits x) }
{
    let unit = x.unit as u64;
    whole_bits(0, LevelType::LAST_UNIT) + whole_bits(lowest(unit), highest(unit))
}

#[tactic(auto, using(crate::proofs::Measured::choice_width, crate::proofs::Measured::level_type_most, crate::proofs::Measured::length_block, crate::proofs::Measured::length_single))]
pub(crate) fn level_bits(x: Level) -> usize
    ensures { result ≡ length (level_bits x) }
{
    let one = whole_bits(0, 1) + level_type_bits(x.first);
    if x.block {
        return one + level_type_bits(x.second);
    }
    one
}

#[tactic(auto, using(crate::proofs::Measured::width_small, crate::proofs::Measured::length_sized))]
fn sized_bits(least: u64, most: u64, text: &[u8]) -> usize
    requires { length text.now ≤ 256 }
    ensures { result ≡ length (sized_bits least most text.now) }
{
    whole_bits(least, most) + Element::CHARACTER_BITS * text.len()
}

// The bits of an argument whose characters are few enough.
#[tactic(auto, using(crate::proofs::Measured::width_small, crate::proofs::Measured::choice_width, crate::proofs::Measured::level_most, crate::proofs::Measured::two_levels_by, crate::proofs::Measured::time_by, crate::proofs::Measured::code_by, crate::proofs::Measured::length_sized, crate::proofs::Measured::length_no_facility, crate::proofs::Measured::length_facility, crate::proofs::Texts::length_characters_bits), unfolding(crate::specs::OneElement::argument_bits))]
fn argument_bits(kind: ArgumentKind, e: Element, text: &[u8]) -> usize
    requires { length text.now ≤ 256 }
    ensures { result ≡ length (argument_bits kind e text.now) }
{
    match kind {
        ArgumentKind::NotCarried | ArgumentKind::None => 0,
        ArgumentKind::Level => level_bits(e.level),
        ArgumentKind::TwoLevels => level_bits(e.level) + level_bits(e.other),
        ArgumentKind::Time => whole_bits(0, Time::LAST_HOUR) + whole_bits(0, Time::LAST_MINUTE),
        ArgumentKind::Code => 4 * whole_bits(0, Element::LAST_DIGIT),
        ArgumentKind::FreeText => sized_bits(
            Element::FREE_TEXT_LEAST,
            Element::FREE_TEXT_MOST,
            text,
        ),
        ArgumentKind::Facility => {
            let choice = whole_bits(0, 1);
            if text.is_empty() {
                return choice;
            }
            choice + sized_bits(Element::DESIGNATION_LEAST, Element::DESIGNATION_MOST, text)
        }
        ArgumentKind::FacilityDesignation => {
            sized_bits(Element::DESIGNATION_LEAST, Element::DESIGNATION_MOST, text)
        }
        ArgumentKind::AtisCode => Element::CHARACTER_BITS * text.len(),
    }
}

fn element_fits(direction: Direction, kind: ArgumentKind, e: Element, text: &[u8]) -> bool
    ensures { result ≡ element_fits_as direction kind e text.now }
{
    fits(0, last_of(direction), e.number as u64)
        && e.characters == text.len() as u64
        && argument_fits(kind, e, text)
}

// How many bits an element takes with an argument of a kind, whose characters are `text`; one that is none of its type takes none.
#[tactic(auto, using(crate::proofs::Measured::width_small, crate::proofs::Measured::few_as, crate::proofs::Measured::small_as, crate::proofs::Measured::length_element_as))]
pub fn element_bits(
    direction: Direction,
    kind: ArgumentKind,
    e: Element,
    text: &[u8],
) -> Option<usize>
    ensures { result ≡ cond (element_fits_as direction kind e text.now)
        (Some (length (element_bits_as direction kind e text.now))) None }
{
    if element_fits(direction, kind, e, text) {
        let index = 1 + whole_bits(0, last_of(direction));
        return Some(index + argument_bits(kind, e, text));
    }
    None
}
