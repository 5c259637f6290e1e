// Fields that are one number: bits, extension bits, whole numbers in a range, indices.
ghost use Rattle.std.specs.Prelude.{◌≡◌, true};
ghost use Rattle.bits.specs.Bits.{bits_n, bits_to};
ghost use Rattle.bits.specs.Put.{left, put_if};
ghost use Rattle.fields.specs.Encodings.{index_bits, whole_bits, whole_fits};
ghost use Rattle.fields.specs.Fields.{bit_field, extensible_index, extension_bit, refused_at, whole_number, width_of};

use crate::{Fault, Reading, Refusal};

// The refusal of the field that begins at a place: every refusal of decoding is made here.
pub fn refused_at<T>(at: usize, fault: Fault) -> Result<T, Refusal>
    ensures { result ≡ refused_at at fault }
{
    Err(Refusal { fault, at })
}

// A field of n bits.
#[tactic(auto, unfolding(crate::specs::Fields::bit_field))]
pub fn bit_field(s: &[u8], end: usize, at: usize, n: usize) -> Reading<u64>
    ensures { result ≡ bit_field (bits_to s.now end) at n }
{
    match bits::read_bits(s, end, at, n) {
        Some(number) => Ok(number),
        None => refused_at(at, Fault::Short),
    }
}

// An extension bit: 1 is refused.
#[tactic(auto, unfolding(crate::specs::Fields::extension_bit))]
pub fn extension_bit(s: &[u8], end: usize, at: usize) -> Reading<u64>
    ensures { result ≡ extension_bit (bits_to s.now end) at }
{
    let (b, next) = bit_field(s, end, at, 1)?;
    if b == 0 {
        return Ok((0, next));
    }
    refused_at(at, Fault::Extension)
}

// How many binary digits a number has.
pub fn width(n: u64) -> usize
    ensures { result ≡ width_of n }
{
    64 - n.leading_zeros() as usize
}

// A whole number from lo to hi.
#[tactic(auto, unfolding(crate::specs::Fields::whole_number))]
pub fn whole(s: &[u8], end: usize, at: usize, lo: u64, hi: u64) -> Reading<u64>
    ensures { result ≡ whole_number (bits_to s.now end) at lo hi }
{
    let (d, next) = bit_field(s, end, at, width(hi.saturating_sub(lo)))?;
    if hi < lo || hi - lo < d {
        return refused_at(at, Fault::Range);
    }
    Ok((lo + d, next))
}

// An extension bit, and then an index.
#[tactic(auto, unfolding(crate::specs::Fields::extensible_index))]
fn index_by_fields(s: &[u8], end: usize, at: usize, last: u64) -> Reading<u64>
    ensures { result ≡ extensible_index (bits_to s.now end) at last }
{
    let (_, next) = extension_bit(s, end, at)?;
    whole(s, end, next, 0, last)
}

// The index of an extensible CHOICE or ENUMERATED type whose last index is `last`: as one number with its extension bit, or field by field,
// which names the fault.
pub fn extensible_index(s: &[u8], end: usize, at: usize, last: u64) -> Reading<u64>
    ensures { result ≡ extensible_index (bits_to s.now end) at last }
{
    match bits::read_bits(s, end, at, 1 + width(last)) {
        Some((v, next)) if v <= last => Ok((v, next)),
        _ => index_by_fields(s, end, at, last),
    }
}

#[tactic(auto, unfolding(bits::specs::Put::put_number))]
pub fn put_extension_bit(buf: &mut [u8], end: usize, at: usize) -> Option<usize>
    ensures { left result buf.new ≡ put_if true buf.old end at (bits_n 1 0) }
{
    bits::put_bits(buf, end, at, 1, 0)
}

pub fn put_whole(buf: &mut [u8], end: usize, at: usize, lo: u64, hi: u64, v: u64) -> Option<usize>
    ensures { left result buf.new ≡ put_if (whole_fits lo hi v) buf.old end at (whole_bits lo hi v) }
{
    if v < lo || hi < v {
        return None;
    }
    bits::put_bits(buf, end, at, width(hi - lo), v - lo)
}

// An extension bit, and then an index, where both have room.
fn put_index_by_fields(buf: &mut [u8], end: usize, at: usize, last: u64, i: u64) -> Option<usize>
    ensures { left result buf.new ≡ put_if (whole_fits 0 last i) buf.old end at (index_bits last i) }
{
    if i <= last && bits::within(buf.len(), end, at, 1 + width(last)) {
        put_extension_bit(buf, end, at);
        return put_whole(buf, end, at + 1, 0, last, i);
    }
    None
}

// As one number with the extension bit, where a number holds both.
pub fn put_extensible_index(
    buf: &mut [u8],
    end: usize,
    at: usize,
    last: u64,
    i: u64,
) -> Option<usize>
    ensures { left result buf.new ≡ put_if (whole_fits 0 last i) buf.old end at (index_bits last i) }
{
    let n = width(last);
    if 64 <= n {
        return put_index_by_fields(buf, end, at, last, i);
    }
    if last < i {
        return None;
    }
    bits::put_bits(buf, end, at, 1 + n, i)
}
