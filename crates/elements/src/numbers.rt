// Numbers one after another, the digits of a code or the characters of a text: tested, and written.
ghost use Rattle.std.specs.Prelude.{◌≡◌, true, ◌&&◌, ◌+◌, ◌*◌, ◌^◌, ◌<◌, ◌≤◌, max, min, leb, length};
ghost use Rattle.bits.specs.Bits.{bits_n};
ghost use Rattle.bits.specs.Put.{left, put_bits};
ghost use Rattle.elements.specs.Arguments.{characters_bits, characters_fit};
ghost use Rattle.elements.specs.Measuring.{all_most};
ghost use Rattle.elements.specs.Writing.{number_pieces, put_pieces};

use crate::values::Element;

// Numbers of which none is above hi: the digits of a code, characters, what is unused.
// The greatest of them is looked for, to the end, so that the compiler takes sixteen at a time.
#[tactic(auto, using(crate::proofs::Measured::most_none, crate::proofs::Measured::most_turn, crate::proofs::Measured::most_done))]
pub fn all_most(hi: u64, items: &[u8]) -> bool
    ensures { result ≡ all_most hi items.now }
{
    let mut most: u8 = 0;
    for item in items {
        most = most.max(*item);
    }
    most as u64 <= hi
}

// Numbers from 0 to hi, one after another: the digits of a code, or characters.
#[tactic(auto, using(crate::proofs::Pieces::numbers_turn, crate::proofs::Pieces::numbers_full, crate::proofs::Pieces::numbers_done))]
pub(crate) fn put_numbers(
    buf: &mut [u8],
    end: usize,
    at: usize,
    hi: u64,
    items: &[u8],
) -> Option<usize>
    ensures { left result buf.new ≡ put_pieces buf.old end at (number_pieces hi items.now) }
{
    let mut p = at;
    for item in items {
        p = fields::put_whole(buf, end, p, 0, hi, *item as u64)?;
    }
    Some(p)
}

// At most eight characters as one number, seven bits each.
fn gathered(items: &[u8]) -> u64
    requires { (length items.now ≤ 8) × (characters_fit items.now ≡ true) }
    ensures { (bits_n (7 * length items.now) result ≡ characters_bits items.now) × (result < 2 ^ (7 * length items.now)) }
{
    let mut v: u64 = 0;
    for item in items {
        v = v * 128 + *item as u64;
    }
    v
}

// Whether items are characters that all have room at a place of so many bytes. No product passes end.
fn have_room(len: usize, end: usize, at: usize, items: &[u8]) -> bool
    ensures { result ≡ leb (at + 7 * length items.now) (min end (8 * len)) && characters_fit items.now }
{
    if end / Element::CHARACTER_BITS < items.len() {
        return false;
    }
    if bits::within(len, end, at, Element::CHARACTER_BITS * items.len()) {
        return all_most(Element::LAST_CHARACTER, items);
    }
    false
}

// Characters that all have room, a few: eight at a time as one number, and the rest as one.
fn put_eights(buf: &mut [u8], end: usize, at: usize, items: &[u8]) -> Option<usize>
    requires { (characters_fit items.now ≡ true) × (at + 7 * length items.now ≤ min end (8 * length buf.old)) }
    ensures { left result buf.new ≡ put_pieces buf.old end at (number_pieces 127 items.now) }
{
    let eights = items.len() / 8;
    for k in 0..eights {
        let v = gathered(&items[8 * k..8 * k + 8]);
        bits::put_bits(
            buf,
            end,
            at + 8 * Element::CHARACTER_BITS * k,
            8 * Element::CHARACTER_BITS,
            v,
        );
    }
    let rest = &items[8 * eights..];
    bits::put_bits(
        buf,
        end,
        at + 8 * Element::CHARACTER_BITS * eights,
        Element::CHARACTER_BITS * rest.len(),
        gathered(rest),
    )
}

// Sixteen characters that have room, the second eight first. A number of eight characters goes into eight bytes, which are read before, and
// the last of them is the first of the next number's: one after another, each would wait for the store before it.
fn put_sixteen(buf: &mut [u8], end: usize, at: usize, items: &[u8])
    requires { (length items.now ≡ 16) × (characters_fit items.now ≡ true) × (at + 112 ≤ min end (8 * length buf.old)) }
    ensures { buf.new ≡ put_bits buf.old at (characters_bits items.now) }
{
    let first = gathered(&items[0..8]);
    let second = gathered(&items[8..]);
    let eight = 8 * Element::CHARACTER_BITS;
    bits::put_bits(buf, end, at + eight, eight, second);
    bits::put_bits(buf, end, at, eight, first);
}

// Characters that all have room: sixteen at a time, and then the rest.
fn put_sixteens(buf: &mut [u8], end: usize, at: usize, items: &[u8]) -> Option<usize>
    requires { (characters_fit items.now ≡ true) × (at + 7 * length items.now ≤ min end (8 * length buf.old)) }
    ensures { left result buf.new ≡ put_pieces buf.old end at (number_pieces 127 items.now) }
{
    let sixteens = items.len() / 16;
    for k in 0..sixteens {
        put_sixteen(
            buf,
            end,
            at + 16 * Element::CHARACTER_BITS * k,
            &items[16 * k..16 * k + 16],
        );
    }
    put_eights(
        buf,
        end,
        at + 16 * Element::CHARACTER_BITS * sixteens,
        &items[16 * sixteens..],
    )
}

// Characters: tested once, or one by one as far as they go.
pub(crate) fn put_characters(buf: &mut [u8], end: usize, at: usize, items: &[u8]) -> Option<usize>
    ensures { left result buf.new ≡ put_pieces buf.old end at (number_pieces 127 items.now) }
{
    if have_room(buf.len(), end, at, items) {
        return put_sixteens(buf, end, at, items);
    }
    put_numbers(buf, end, at, Element::LAST_CHARACTER, items)
}
