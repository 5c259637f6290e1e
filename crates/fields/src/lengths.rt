// Length determinants: under 128 in 8 bits, to 16,383 in 10 and then 14 bits, anything else refused.
ghost use Rattle.std.specs.Prelude.{◌≡◌};
ghost use Rattle.bits.specs.Bits.{bits_to};
ghost use Rattle.bits.specs.Put.{left, put_if};
ghost use Rattle.fields.specs.Encodings.{length_bits, length_fits};
ghost use Rattle.fields.specs.Fields.{length_at, length_within};

use crate::numbers::{bit_field, refused_at};
use crate::{Fault, Reading};

// A length in its shortest form.
#[tactic(auto, unfolding(crate::specs::Fields::length_at))]
pub fn length(s: &[u8], end: usize, at: usize) -> Reading<u64>
    ensures { result ≡ length_at (bits_to s.now end) at }
{
    let (b, next) = bit_field(s, end, at, 8)?;
    if b < 128 {
        return Ok((b, next));
    }
    if 192 <= b {
        return refused_at(at, Fault::LengthForm);
    }
    let (v, last) = bit_field(s, end, at, 16)?;
    if v < 32768 + 128 {
        return refused_at(at, Fault::LengthForm);
    }
    Ok((v - 32768, last))
}

// A length from least to most.
#[tactic(auto, unfolding(crate::specs::Fields::length_within))]
pub fn length_within(s: &[u8], end: usize, at: usize, least: u64, most: u64) -> Reading<u64>
    ensures { result ≡ length_within (bits_to s.now end) at least most }
{
    let (n, next) = length(s, end, at)?;
    if n < least || most < n {
        return refused_at(at, Fault::Limit);
    }
    Ok((n, next))
}

pub fn put_length(buf: &mut [u8], end: usize, at: usize, n: u64) -> Option<usize>
    ensures { left result buf.new ≡ put_if (length_fits n) buf.old end at (length_bits n) }
{
    if n < 128 {
        return bits::put_bits(buf, end, at, 8, n);
    }
    if n < 16384 {
        return bits::put_bits(buf, end, at, 16, 32768 + n);
    }
    None
}
