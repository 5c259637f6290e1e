// A message read from its bits into the range that the host keeps it in, and its characters into a text: each element is read once.
// Everything that can be refused is decided before the first lent byte is written.
ghost use Rattle.std.specs.Prelude.{◌≡◌, ℕ, ◌≤◌, Ok, length};
ghost use Rattle.bits.specs.Bits.{bits_to};
ghost use Rattle.inner.specs.Messages.{open_message, room_least};
ghost use Rattle.layout.specs.Layout.{size};
ghost use Rattle.layout.specs.Calls.{read_number, told, told_of};
ghost use Rattle.layout.specs.Rows.{row_told_of};

use crate::bytes::put_bytes;
use crate::characters::copy_texts;
use crate::front::front_bytes;
use crate::place::place_bytes;
use crate::stored::{FRONT, PLACE};
use elements::reading::read_element;
use elements::values::Element;
use fields::{Fault, refused_at};
use inner::header::read_header;
use inner::message::read_count;
use inner::values::{Header, Message, Unopened};
use kinds::Direction;

// The n elements at a place behind a header, and nothing after them. They fill the five places in order, and of each is kept how many
// characters it has and where they begin; then all of it is laid into the range and the text.
fn read_row(
    direction: Direction,
    s: &[u8],
    end: usize,
    header: Header,
    at: usize,
    n: usize,
    message: &mut [u8],
    text: &mut [u8],
) -> Result<usize, Unopened>
    requires { (n ≤ 5) × (length message.old ≡ size) × (room_least ≤ length text.old) }
    ensures { (told (read_number result) message.new text.new ≡
        row_told_of direction (bits_to s.now end) header at n message.old text.old)
        × ((k : ℕ) → result ≡ Ok k → k ≤ 1280) }
{
    let mut places = [Element::EMPTY; 5];
    let mut counts = [0usize; 5];
    let mut starts = [0usize; 5];
    let mut p = at;
    for i in 0..n {
        let (e, next) = read_element(direction, s, end, p)?;
        places[i] = e;
        let c = e.characters as usize;
        counts[i] = c;
        starts[i] = next - Element::CHARACTER_BITS * c;
        p = next;
    }
    if bits::within(s.len(), end, p, 1) {
        return refused_at(p, Fault::Tail).map_err(Unopened::Refused);
    }
    put_bytes(message, 0, &front_bytes(header, n));
    for k in 0..Message::PLACES {
        put_bytes(message, FRONT + PLACE * k, &place_bytes(places[k]));
    }
    Ok(copy_texts(s, end, counts, starts, n, text))
}

// The message that the first `count` bits are, into a range of its size, and its characters into the first bytes of `text`.
pub(crate) fn read_laid(
    direction: Direction,
    s: &[u8],
    count: usize,
    message: &mut [u8],
    text: &mut [u8],
) -> Result<usize, Unopened>
    requires { (length message.old ≡ size) × (room_least ≤ length text.old) }
    ensures { (told (read_number result) message.new text.new ≡
        told_of message.old (open_message direction s.now count text.old))
        × ((k : ℕ) → result ≡ Ok k → k ≤ 1280) }
{
    if Message::BITS < count {
        return Err(Unopened::Shape);
    }
    if !bits::within(s.len(), count, 0, count) {
        return Err(Unopened::Shape);
    }
    let (header, p) = read_header(s, count, 0)?;
    let (n, q) = read_count(s, count, p)?;
    read_row(direction, s, count, header, q, n as usize, message, text)
}
