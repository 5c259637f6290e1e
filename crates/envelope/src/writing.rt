// An envelope into a lent buffer: everything that can be refused is decided before a byte is written.
ghost use Rattle.std.specs.Prelude.{◌≡◌};
ghost use Rattle.envelope.specs.Envelopes.{fits, most_bits, least_room, left, write_envelope};

use crate::Envelope;
use crate::putting::{put_bytes, put_number};
use crate::reading::{bytes_for, is_kind, padded, size_fits};
use words::Unwritten;

// Reading refuses none of these: kind, job, bit count and the first bytes of the body.
#[tactic(auto, unfolding(crate::specs::Envelopes::fits))]
fn may_write(kind: u64, job: u64, bits: u64, body: &[u8]) -> bool
    ensures { result ≡ fits most_bits kind job bits body.now }
{
    is_kind(kind)
        && job != 0
        && size_fits(kind, bits)
        && bytes_for(bits) <= body.len()
        && padded(body, 0, bits)
}

// The envelope of a kind, a job, a bit count and the first bytes of a body. The buffer is changed where it is written only.
pub fn write_envelope(
    out: &mut [u8],
    kind: u64,
    job: u64,
    bits: u64,
    body: &[u8],
) -> Result<usize, Unwritten>
    ensures { left result out.new ≡ write_envelope least_room most_bits out.old kind job bits body.now }
{
    if out.len() < Envelope::ROOM {
        return Err(Unwritten::Room);
    }
    if !may_write(kind, job, bits, body) {
        return Err(Unwritten::Shape);
    }
    let p = put_number(out, 0, kind);
    let q = put_number(out, p, job);
    let t = put_number(out, q, bits);
    let n = bytes_for(bits);
    let end = put_bytes(out, t, body, n);
    Ok(end)
}
