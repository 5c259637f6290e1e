// A place: an element and its argument.
ghost use Rattle.std.specs.Prelude.{◌≡◌, ◌+◌, ◌≤◌, length};
ghost use Rattle.layout.specs.Layout.{element_of, level_of, place_bytes, place_size, place_stands};

use crate::bytes::{flag_code, high, low, of_two};
use elements::values::{Element, Level, LevelType, Time};

fn load_level(p: &[u8], at: usize) -> Level
    requires { at + 7 ≤ length p.now }
    ensures { result ≡ level_of p.now at }
{
    let first = of_two(p[at + 2], p[at + 3]);
    let second = of_two(p[at + 5], p[at + 6]);
    Level {
        block: p[at] == 1,
        first: LevelType {
            unit: p[at + 1],
            number: first,
        },
        second: LevelType {
            unit: p[at + 4],
            number: second,
        },
    }
}

pub(crate) fn load_element(p: &[u8]) -> Element
    requires { place_size ≤ length p.now }
    ensures { result ≡ element_of p.now }
{
    let level = load_level(p, 3);
    let other = load_level(p, 10);
    let characters = of_two(p[1], p[2]);
    Element {
        number: p[0],
        level,
        other,
        time: Time {
            hours: p[17],
            minutes: p[18],
        },
        code: [p[19], p[20], p[21], p[22]],
        characters: characters as u64,
    }
}

#[tactic(auto, unfolding(crate::specs::Layout::place_stands))]
pub(crate) fn place_stands(p: &[u8]) -> bool
    requires { place_size ≤ length p.now }
    ensures { result ≡ place_stands p.now }
{
    p[3] < 2 && p[10] < 2 && p[23] == 0
}

pub(crate) fn place_bytes(e: Element) -> [u8; 24]
    ensures { result ≡ place_bytes e }
{
    let x = e.level;
    let y = e.other;
    let t = e.time;
    let code = e.code;
    let a = x.first;
    let b = x.second;
    let c = y.first;
    let d = y.second;
    [
        e.number,
        high(e.characters),
        low(e.characters),
        flag_code(x.block),
        a.unit,
        high(a.number as u64),
        low(a.number as u64),
        b.unit,
        high(b.number as u64),
        low(b.number as u64),
        flag_code(y.block),
        c.unit,
        high(c.number as u64),
        low(c.number as u64),
        d.unit,
        high(d.number as u64),
        low(d.number as u64),
        t.hours,
        t.minutes,
        code[0],
        code[1],
        code[2],
        code[3],
        0,
    ]
}
