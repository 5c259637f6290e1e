// The arguments that are carried, kind by kind, read from the bits of a message at any place.
ghost use Rattle.std.specs.Prelude.{◌≡◌};
ghost use Rattle.bits.specs.Bits.{bits_to};
ghost use Rattle.elements.specs.Arguments.{code_at, facility_at, highest, level_at, level_type_at, lowest, time_at};

use crate::values::{Element, Level, LevelType, Time};
use fields::Reading;

#[tactic(auto, using(crate::proofs::Levels::by_unit, crate::proofs::Levels::past_lowest), unfolding(crate::specs::Arguments::lowest))]
pub(crate) fn lowest(unit: u64) -> u64
    ensures { result ≡ lowest unit }
{
    if unit < 4 {
        return LevelType::LOWEST[unit as usize];
    }
    0
}

#[tactic(auto, using(crate::proofs::Levels::by_unit, crate::proofs::Levels::past_highest), unfolding(crate::specs::Arguments::highest))]
pub(crate) fn highest(unit: u64) -> u64
    ensures { result ≡ highest unit }
{
    if unit < 4 {
        return LevelType::HIGHEST[unit as usize];
    }
    0
}

#[tactic(auto, using(crate::proofs::Whole::whole_most, crate::proofs::Levels::highest_small), unfolding(crate::specs::Arguments::level_type_at))]
pub fn read_level_type(s: &[u8], end: usize, at: usize) -> Reading<LevelType>
    ensures { result ≡ level_type_at (bits_to s.now end) at }
{
    let (unit, next) = fields::whole(s, end, at, 0, LevelType::LAST_UNIT)?;
    let (number, last) = fields::whole(s, end, next, lowest(unit), highest(unit))?;
    Ok((
        LevelType {
            unit: unit as u8,
            number: number as u16,
        },
        last,
    ))
}

#[tactic(auto, unfolding(crate::specs::Arguments::level_at))]
fn read_level_by_fields(s: &[u8], end: usize, at: usize) -> Reading<Level>
    ensures { result ≡ level_at (bits_to s.now end) at }
{
    let (block, from) = fields::whole(s, end, at, 0, 1)?;
    let (first, next) = read_level_type(s, end, from)?;
    if block == 0 {
        return Ok((
            Level {
                block: false,
                first,
                second: LevelType::EMPTY,
            },
            next,
        ));
    }
    let (second, last) = read_level_type(s, end, next)?;
    Ok((
        Level {
            block: true,
            first,
            second,
        },
        last,
    ))
}

// A level that is no block: the index 0 of the CHOICE and the unit as one number; else, and where something is refused, field by field.
pub fn read_level(s: &[u8], end: usize, at: usize) -> Reading<Level>
    ensures { result ≡ level_at (bits_to s.now end) at }
{
    let Some((unit, next)) = bits::read_bits(s, end, at, Level::FRONT_BITS) else {
        return read_level_by_fields(s, end, at);
    };
    if LevelType::LAST_UNIT < unit {
        return read_level_by_fields(s, end, at);
    }
    let Ok((number, last)) = fields::whole(s, end, next, lowest(unit), highest(unit)) else {
        return read_level_by_fields(s, end, at);
    };
    Ok((
        Level {
            block: false,
            first: LevelType {
                unit: unit as u8,
                number: number as u16,
            },
            second: LevelType::EMPTY,
        },
        last,
    ))
}

#[tactic(auto, using(crate::proofs::Whole::whole_most), unfolding(crate::specs::Arguments::time_at))]
pub fn read_time(s: &[u8], end: usize, at: usize) -> Reading<Time>
    ensures { result ≡ time_at (bits_to s.now end) at }
{
    let (hours, next) = fields::whole(s, end, at, 0, Time::LAST_HOUR)?;
    let (minutes, last) = fields::whole(s, end, next, 0, Time::LAST_MINUTE)?;
    Ok((
        Time {
            hours: hours as u8,
            minutes: minutes as u8,
        },
        last,
    ))
}

#[tactic(auto, using(crate::proofs::Whole::whole_most), unfolding(crate::specs::Arguments::code_at))]
fn read_code_by_fields(s: &[u8], end: usize, at: usize) -> Reading<[u8; 4]>
    ensures { result ≡ code_at (bits_to s.now end) at }
{
    let (a, p) = fields::whole(s, end, at, 0, Element::LAST_DIGIT)?;
    let (b, q) = fields::whole(s, end, p, 0, Element::LAST_DIGIT)?;
    let (c, r) = fields::whole(s, end, q, 0, Element::LAST_DIGIT)?;
    let (d, next) = fields::whole(s, end, r, 0, Element::LAST_DIGIT)?;
    Ok(([a as u8, b as u8, c as u8, d as u8], next))
}

// The four digits as one number, or one by one.
pub fn read_code(s: &[u8], end: usize, at: usize) -> Reading<[u8; 4]>
    ensures { result ≡ code_at (bits_to s.now end) at }
{
    let Some((v, next)) = bits::read_bits(s, end, at, Element::CODE_BITS) else {
        return read_code_by_fields(s, end, at);
    };
    let c = v / 8;
    let b = c / 8;
    let a = b / 8;
    Ok((
        [(a % 8) as u8, (b % 8) as u8, (c % 8) as u8, (v % 8) as u8],
        next,
    ))
}

// A facility: how many characters its designation has, none where there is none.
#[tactic(auto, unfolding(crate::specs::Arguments::facility_at))]
pub fn facility(s: &[u8], end: usize, at: usize) -> Reading<u64>
    ensures { result ≡ facility_at (bits_to s.now end) at }
{
    let (designated, next) = fields::whole(s, end, at, 0, 1)?;
    if designated == 0 {
        return Ok((0, next));
    }
    fields::sized(
        s,
        end,
        next,
        Element::CHARACTER_BITS,
        Element::DESIGNATION_LEAST,
        Element::DESIGNATION_MOST,
    )
}
