// Numbers in groups of seven bits, lowest group first, the top bit set on all but the last byte.
ghost use Rattle.std.specs.Prelude.{◌≡◌};
ghost use Rattle.envelope.specs.Numbers.{number_at};

use crate::{EnvelopeRefusal, wide};

// The groups that may be followed by another: 64 bits are nine groups of seven, and one bit.
pub const FOLLOWED: usize = 9;

// The number at a position, of any length. Nine groups may be followed by another; the tenth has one bit.
pub(crate) fn gathered(s: &[u8], at: usize) -> Result<(u64, usize), EnvelopeRefusal>
    ensures { result ≡ number_at s.now at }
{
    let mut v: u64 = 0;
    let mut w: u64 = 1;
    let mut p = at;
    for i in 0..FOLLOWED {
        if s.len() <= p {
            return Err(EnvelopeRefusal::Cut);
        }
        let b = wide(s[p]);
        if b < 128 {
            if 0 < b {
                return Ok((v + b * w, p + 1));
            }
            if 0 < i {
                return Err(EnvelopeRefusal::Groups);
            }
            return Ok((0, p + 1));
        }
        v += (b - 128) * w;
        w *= 128;
        p += 1;
    }
    if s.len() <= p {
        return Err(EnvelopeRefusal::Cut);
    }
    let b = wide(s[p]);
    if b != 1 {
        return Err(EnvelopeRefusal::Groups);
    }
    Ok((v + w, p + 1))
}

// The number at a position. Most numbers are one byte or two: a bit count is never more.
#[tactic(auto, using(crate::proofs::Numbers::one_byte, crate::proofs::Numbers::one_cut, crate::proofs::Numbers::one_longer))]
pub fn read_number(s: &[u8], at: usize) -> Result<(u64, usize), EnvelopeRefusal>
    ensures { result ≡ number_at s.now at }
{
    if s.len() <= at {
        return Err(EnvelopeRefusal::Cut);
    }
    let b = wide(s[at]);
    if b < 128 {
        return Ok((b, at + 1));
    }
    if s.len() - at < 2 {
        return Err(EnvelopeRefusal::Cut);
    }
    let c = wide(s[at + 1]);
    if c < 1 {
        return Err(EnvelopeRefusal::Groups);
    }
    if c < 128 {
        return Ok((b - 128 + c * 128, at + 2));
    }
    gathered(s, at)
}
