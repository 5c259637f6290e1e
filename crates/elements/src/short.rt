// Arguments that stand together as one number: how many bits they take, and the number that these say.
ghost use Rattle.std.specs.Prelude.{◌≡◌, true, false, IfSome, List, ℕ};
ghost use Rattle.bits.specs.Bits.{num_of};
ghost use Rattle.elements.specs.Arguments.{level_type_bits, level_type_fits};
ghost use Rattle.elements.specs.Writing.{OneNumber, argument_pieces, level_pieces, number_pieces, time_pieces};

use crate::arguments::{highest, lowest};
use crate::measuring::{level_bits, time_fits_use, type_fits_use, whole_bits};
use crate::numbers::all_most;
use crate::values::{Element, Level, LevelType, Time};
use kinds::ArgumentKind;

// How many bits an argument of its type takes, and the number that they say.
#[derive(Clone, Copy)]
pub struct Short {
    pub bits: usize,
    pub number: u64,
}

// Whether a level is no block, and what is written of it is of its type.
#[tactic(auto, unfolding(crate::specs::Measuring::type_fits_use))]
fn is_single(x: Level) -> bool
    ensures { result ≡ true → (x.block ≡ false) × (level_type_fits x.first ≡ true) }
{
    !x.block && type_fits_use(true, x.first)
}

// The number that the bits of a level in one unit say: the unit, and how far it lies above the lowest.
fn type_number(x: LevelType) -> u64
    requires { level_type_fits x ≡ true }
    ensures { result ≡ num_of (level_type_bits x) }
{
    let unit = x.unit as u64;
    let low = lowest(unit);
    let n = whole_bits(low, highest(unit));
    (unit << n) + (x.number as u64 - low)
}

// A level that is no block: the first bit is the index 0 of the CHOICE.
pub(crate) fn short_level(x: Level) -> Option<Short>
    ensures { IfSome result (λ n. OneNumber (level_pieces x) n.bits n.number) }
{
    if is_single(x) {
        return Some(Short {
            bits: level_bits(x),
            number: type_number(x.first),
        });
    }
    None
}

fn short_time(x: Time) -> Option<Short>
    ensures { IfSome result (λ n. OneNumber (time_pieces x) n.bits n.number) }
{
    if time_fits_use(true, x) {
        return Some(Short {
            bits: 11,
            number: x.hours as u64 * 64 + x.minutes as u64,
        });
    }
    None
}

fn short_code(x: [u8; 4]) -> Option<Short>
    ensures { IfSome result (λ n. OneNumber (number_pieces 7 x) n.bits n.number) }
{
    if all_most(Element::LAST_DIGIT, &x) {
        let [a, b, c, d] = x;
        return Some(Short {
            bits: Element::CODE_BITS,
            number: ((a as u64 * 8 + b as u64) * 8 + c as u64) * 8 + d as u64,
        });
    }
    None
}

// An argument without characters: none, a level, a time, a code.
#[tactic(auto, using(crate::proofs::Joined::nothing_said), unfolding(crate::specs::Writing::argument_pieces))]
pub(crate) fn short_argument(kind: ArgumentKind, e: Element) -> Option<Short>
    ensures { (t : List ℕ) → IfSome result (λ n. OneNumber (argument_pieces kind e t) n.bits n.number) }
{
    match kind {
        ArgumentKind::None => Some(Short { bits: 0, number: 0 }),
        ArgumentKind::Level => short_level(e.level),
        ArgumentKind::Time => short_time(e.time),
        ArgumentKind::Code => short_code(e.code),
        ArgumentKind::NotCarried
        | ArgumentKind::TwoLevels
        | ArgumentKind::FreeText
        | ArgumentKind::Facility
        | ArgumentKind::FacilityDesignation
        | ArgumentKind::AtisCode => None,
    }
}
