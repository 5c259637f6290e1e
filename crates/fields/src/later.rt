// Additions from a later edition, behind the root of an extensible SEQUENCE whose extension bit is 1: stepped over by their lengths, and not looked at.
ghost use Rattle.std.specs.Prelude.{◌≡◌};
ghost use Rattle.bits.specs.Bits.{bits_to};
ghost use Rattle.fields.specs.Additions.{addition_at, addition_count, additions_at, additions_there, stepped_over};

use crate::lengths::length;
use crate::numbers::{bit_field, extension_bit, refused_at};
use crate::strings::contents;
use crate::{Fault, Reading};

// How many additions the later edition has: a bit 0, and one less than the count in 6 bits.
#[tactic(auto, unfolding(crate::specs::Additions::addition_count))]
pub fn addition_count(s: &[u8], end: usize, at: usize) -> Reading<u64>
    ensures { result ≡ addition_count (bits_to s.now end) at }
{
    extension_bit(s, end, at)?;
    let (v, next) = bit_field(s, end, at, 7)?;
    Ok((v + 1, next))
}

// Which of n additions are there: one at least.
#[tactic(auto, unfolding(crate::specs::Additions::additions_there))]
pub fn additions_there(s: &[u8], end: usize, at: usize, n: usize) -> Reading<u64>
    ensures { result ≡ additions_there (bits_to s.now end) at n }
{
    let (v, next) = bit_field(s, end, at, n)?;
    if v == 0 {
        return refused_at(at, Fault::Extension);
    }
    Ok((v, next))
}

// An addition: its length in octets, and the octets.
#[tactic(auto, unfolding(crate::specs::Additions::addition_at))]
fn addition(s: &[u8], end: usize, at: usize) -> Reading<u64>
    ensures { result ≡ addition_at (bits_to s.now end) at }
{
    let (n, from) = length(s, end, at)?;
    contents(s, end, from, 8, n as usize)
}

// So many additions, one after the other.
fn step_over(s: &[u8], end: usize, at: usize, count: u64) -> Reading<u64>
    ensures { result ≡ stepped_over (bits_to s.now end) at count }
{
    let mut p = at;
    for _ in 0..count {
        (_, p) = addition(s, end, p)?;
    }
    Ok((0, p))
}

// The additions at a place, and the place after them.
#[tactic(auto, unfolding(crate::specs::Additions::additions_at))]
pub fn additions(s: &[u8], end: usize, at: usize) -> Reading<u64>
    ensures { result ≡ additions_at (bits_to s.now end) at }
{
    let (n, p) = addition_count(s, end, at)?;
    let (v, q) = additions_there(s, end, p, n as usize)?;
    step_over(s, end, q, v.count_ones() as u64)
}
