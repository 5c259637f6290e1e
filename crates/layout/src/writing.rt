// A message written from the range that the host keeps it in, place by place: no message is put together first. Everything that can be
// refused is decided before the first bit is written.
ghost use Rattle.std.specs.Prelude.{◌≡◌, Some, None, cond, true, [], ◌∷◌, ◌+◌, ◌≤◌, min, drop, get_or, length, take};
ghost use Rattle.bits.specs.Put.{left};
ghost use Rattle.fields.specs.Encodings.{whole_fits};
ghost use Rattle.elements.specs.Writing.{put_pieces, whole};
ghost use Rattle.inner.specs.Headers.{header_bits, header_fits};
ghost use Rattle.inner.specs.Messages.{all_empty, done, message_bits, message_carried, padding as paddingOf, write_message};
ghost use Rattle.inner.specs.Places.{row_bits, row_fits};
ghost use Rattle.inner.specs.Writing.{message_pieces, row_pieces};
ghost use Rattle.layout.specs.Layout.{KindsOf, elements_of, front_size, message_of, places_stand, size};

use crate::front::load_header;
use crate::place::load_element;
use crate::stored::{FRONT, PLACE};
use elements::measuring::element_bits;
use elements::numbers::all_most;
use elements::writing::put_element;
use inner::measuring::header_bits;
use inner::values::Message;
use inner::writing::put_header;
use kinds::{ArgumentKind, Direction, kind_of};
use words::Unwritten;

// Where n characters end that begin at a place of a text: not behind the text's end.
fn part_end(len: usize, from: usize, n: u64) -> usize
    requires { from ≤ len }
    ensures { result ≡ min (from + n) len }
{
    from + (n as usize).min(len - from)
}

// How many of the five places are used, where n are said to be.
fn used(n: u8) -> usize
    ensures { result ≡ min n 5 }
{
    (n as usize).min(Message::PLACES)
}

// The kinds of the arguments in the first n places, of which there are five: each is looked up once.
fn kinds_of(direction: Direction, b: &[u8], n: u8) -> [ArgumentKind; 5]
    requires { size ≤ length b.now }
    ensures { KindsOf direction b.now n result }
{
    let mut ks = [ArgumentKind::NotCarried; 5];
    for i in 0..used(n) {
        ks[i] = kind_of(direction, b[FRONT + PLACE * i]);
    }
    ks
}

// How many bits the elements in the first n places take; their characters are the whole text.
fn row_bits(
    direction: Direction,
    ks: [ArgumentKind; 5],
    b: &[u8],
    n: usize,
    text: &[u8],
) -> Option<usize>
    requires { (n ≤ 5) × (size ≤ length b.now) × KindsOf direction b.now n ks }
    ensures { result ≡ cond (row_fits direction (take n (elements_of 5 (drop front_size b.now))) text.now)
        (Some (length (row_bits direction (take n (elements_of 5 (drop front_size b.now))) text.now))) None }
{
    let mut from: usize = 0;
    let mut total: usize = 0;
    for i in 0..n {
        let at = FRONT + PLACE * i;
        let e = load_element(&b[at..at + PLACE]);
        let to = part_end(text.len(), from, e.characters);
        let k = element_bits(direction, ks[i], e, &text[from..to])?;
        total += k;
        from = to;
    }
    if from == text.len() {
        return Some(total);
    }
    None
}

// The places behind the first n are empty: of bytes that say a message, these are zero then.
fn rest_empty(b: &[u8], n: usize) -> bool
    requires { (n ≤ 5) × (length b.now ≡ size) × (places_stand 5 (drop front_size b.now) ≡ true) }
    ensures { result ≡ all_empty (drop n (elements_of 5 (drop front_size b.now))) }
{
    all_most(0, &b[FRONT + PLACE * n..])
}

fn is_count(n: usize) -> bool
    ensures { result ≡ whole_fits 1 5 n }
{
    1 <= n && n <= Message::PLACES
}

// How many bits the message in a range takes whose header takes a bits. One that is none of its type, or passes the most bits, has the wrong shape.
fn laid_bits(
    direction: Direction,
    ks: [ArgumentKind; 5],
    b: &[u8],
    a: usize,
    text: &[u8],
) -> Option<usize>
    requires { (length b.now ≡ size) × (places_stand 5 (drop front_size b.now) ≡ true) × KindsOf direction b.now (get_or b.now 11 0) ks
        × (Some a ≡ cond (header_fits (message_of b.now).header) (Some (length (header_bits (message_of b.now).header))) None) }
    ensures { result ≡ cond (message_carried direction (message_of b.now) text.now)
        (Some (length (message_bits direction (message_of b.now) text.now))) None }
{
    let n = b[11] as usize;
    if !is_count(n) {
        return None;
    }
    let k = row_bits(direction, ks, b, n, text)?;
    if !rest_empty(b, n) {
        return None;
    }
    let all = a + Message::BETWEEN + k;
    if Message::BITS < all {
        return None;
    }
    Some(all)
}

// The elements in the first n places; the characters of each follow those of the one before.
fn put_row(
    buf: &mut [u8],
    end: usize,
    at: usize,
    direction: Direction,
    ks: [ArgumentKind; 5],
    b: &[u8],
    n: usize,
    text: &[u8],
) -> Option<usize>
    requires { (n ≤ 5) × (size ≤ length b.now) × KindsOf direction b.now n ks }
    ensures { left result buf.new ≡
        put_pieces buf.old end at (row_pieces direction (take n (elements_of 5 (drop front_size b.now))) text.now) }
{
    let mut from: usize = 0;
    let mut p = at;
    for i in 0..n {
        let q = FRONT + PLACE * i;
        let e = load_element(&b[q..q + PLACE]);
        let to = part_end(text.len(), from, e.characters);
        p = put_element(buf, end, p, direction, ks[i], e, &text[from..to])?;
        from = to;
    }
    Some(p)
}

// That there is no constrained data, and the count of elements.
#[tactic(auto, unfolding(elements::specs::Writing::put_pieces))]
fn put_count_by_fields(buf: &mut [u8], end: usize, at: usize, n: u64) -> Option<usize>
    ensures { left result buf.new ≡ put_pieces buf.old end at (whole 0 1 0 ∷ whole 1 5 n ∷ []) }
{
    let next = fields::put_whole(buf, end, at, 0, 1, 0)?;
    fields::put_whole(buf, end, next, 1, Message::PLACES as u64, n)
}

// Both as one number where it is a count and there is room for them, else field by field.
fn put_count(buf: &mut [u8], end: usize, at: usize, n: u64) -> Option<usize>
    ensures { left result buf.new ≡ put_pieces buf.old end at (whole 0 1 0 ∷ whole 1 5 n ∷ []) }
{
    if is_count(n as usize) && bits::within(buf.len(), end, at, Message::BETWEEN) {
        return bits::put_bits(buf, end, at, Message::BETWEEN, n - 1);
    }
    put_count_by_fields(buf, end, at, n)
}

// The header, that there is no constrained data, the count of elements, and the elements.
fn put_laid(
    buf: &mut [u8],
    end: usize,
    direction: Direction,
    ks: [ArgumentKind; 5],
    b: &[u8],
    text: &[u8],
) -> Option<usize>
    requires { (get_or b.now 11 0 ≤ 5) × (size ≤ length b.now) × KindsOf direction b.now (get_or b.now 11 0) ks }
    ensures { left result buf.new ≡
        put_pieces buf.old end 0 (message_pieces direction (message_of b.now) text.now) }
{
    let p = put_header(buf, end, 0, load_header(b))?;
    let n = b[11];
    let q = put_count(buf, end, p, n as u64)?;
    put_row(buf, end, q, direction, ks, b, n as usize, text)
}

// How many zero bits follow n bits up to a whole byte.
fn padding(n: usize) -> usize
    ensures { result ≡ paddingOf n }
{
    (8 - n % 8) % 8
}

// The message in a range, whose characters are `text`, from the buffer's first bit on.
pub(crate) fn write_laid(
    direction: Direction,
    b: &[u8],
    text: &[u8],
    out: &mut [u8],
) -> Result<usize, Unwritten>
    requires { (length b.now ≡ size) × (places_stand 5 (drop front_size b.now) ≡ true) }
    ensures { done result out.new ≡ write_message direction (message_of b.now) text.now out.old }
{
    if out.len() < Message::ROOM {
        return Err(Unwritten::Room);
    }
    let Some(a) = header_bits(load_header(b)) else {
        return Err(Unwritten::Shape);
    };
    let ks = kinds_of(direction, b, b[11]);
    let Some(n) = laid_bits(direction, ks, b, a, text) else {
        return Err(Unwritten::Shape);
    };
    let end = 8 * Message::ROOM;
    put_laid(out, end, direction, ks, b, text);
    bits::put_bits(out, end, n, padding(n), 0);
    Ok(n)
}
