// The envelope at a position. The tests return early: joined by && and || they take six in a hundred instructions more of `peat_compare`, over its bar (tests/cost).
ghost use Rattle.std.specs.Prelude.{◌≡◌, ◌+◌, ◌≤◌, ltb, length, drop};
ghost use Rattle.envelope.specs.Envelopes.{is_kind, size_fits, bytes_for, is_padded, envelope_at, most_bits};

use crate::groups::{gathered, read_number};
use crate::{Envelope, EnvelopeRefusal, wide};

// Kind 1 is a message to send, 2 a delivered one, 3 a refusal.
#[tactic(auto, unfolding(crate::specs::Envelopes::is_kind))]
pub fn is_kind(kind: u64) -> bool
    ensures { result ≡ is_kind kind }
{
    1 <= kind && kind <= Envelope::REFUSAL
}

// A bit count that an envelope of the kind may have.
#[tactic(auto, unfolding(crate::specs::Envelopes::size_fits))]
pub fn size_fits(kind: u64, bits: u64) -> bool
    ensures { result ≡ size_fits most_bits kind bits }
{
    if Envelope::MOST_BITS < bits {
        return false;
    }
    if kind == Envelope::REFUSAL {
        return bits == Envelope::REFUSAL_BITS;
    }
    true
}

// The bytes that a body of so many bits takes.
#[tactic(auto, unfolding(crate::specs::Envelopes::bytes_for))]
pub fn bytes_for(bits: u64) -> usize
    ensures { result ≡ bytes_for bits }
{
    (bits / 8 + (bits % 8 + 7) / 8) as usize
}

// The bits past the last of a body are zero.
#[tactic(auto, using(crate::proofs::Fields::padded_none, crate::proofs::Fields::padded_last, crate::proofs::Fields::weight_pos))]
pub(crate) fn padded(s: &[u8], at: usize, bits: u64) -> bool
    requires { at + bytes_for bits ≤ length s.now }
    ensures { result ≡ is_padded bits (drop at s.now) }
{
    let n = bytes_for(bits);
    if n == 0 {
        return true;
    }
    wide(s[at + n - 1]) % (128 >> ((bits % 8 + 7) % 8)) == 0
}

// The bytes of a body are not all there.
#[tactic(auto, using(crate::proofs::Fields::lacks_more, crate::proofs::Fields::lacks_there))]
fn lacks_body(s: &[u8], at: usize, bits: u64) -> bool
    ensures { result ≡ ltb (length s.now) (at + bytes_for bits) }
{
    let n = bytes_for(bits);
    if s.len() < n {
        return true;
    }
    s.len() - n < at
}

// The envelope that begins at a position: kind number, job, bit count, body, and the first refusal among them. A kind is one byte; a longer
// number is read for its refusal alone.
#[tactic(auto, using(crate::proofs::KindByte::kind_cut, crate::proofs::KindByte::kind_none, crate::proofs::KindByte::kind_went), unfolding(crate::specs::Envelopes::envelope_at, crate::specs::Envelopes::kind_at, crate::specs::Envelopes::job_at, crate::specs::Envelopes::size_at, crate::specs::Envelopes::body_at))]
pub fn read_envelope(s: &[u8], at: usize) -> Result<Envelope, EnvelopeRefusal>
    ensures { result ≡ envelope_at most_bits s.now at }
{
    if s.len() <= at {
        return Err(EnvelopeRefusal::Cut);
    }
    let kind = wide(s[at]);
    if !is_kind(kind) {
        gathered(s, at)?;
        return Err(EnvelopeRefusal::Kind);
    }
    let (job, q) = read_number(s, at + 1)?;
    if job == 0 {
        return Err(EnvelopeRefusal::Groups);
    }
    let (bits, t) = read_number(s, q)?;
    if !size_fits(kind, bits) {
        return Err(EnvelopeRefusal::Size);
    }
    if lacks_body(s, t, bits) {
        return Err(EnvelopeRefusal::Cut);
    }
    if !padded(s, t, bits) {
        return Err(EnvelopeRefusal::Size);
    }
    Ok(Envelope {
        kind,
        job,
        bits,
        body: t,
        next: t + bytes_for(bits),
    })
}
