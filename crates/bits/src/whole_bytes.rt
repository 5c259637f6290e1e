// Eight whole bytes as one number: what read_bits and put_bits do for 64 bits at a byte, without a test of the width or a shift.
ghost use Rattle.std.specs.Prelude.{◌≡◌, ◌+◌, ◌*◌, min, leb};
ghost use Rattle.bits.specs.Bits.{bits_to};
ghost use Rattle.bits.specs.Read.{read_bits};
ghost use Rattle.bits.specs.Put.{put_number, left};

use crate::eight_bytes::{eight_at, put_eight};
use crate::extent::within;

// Whether eight bytes from byte q on lie within the first end bits of len bytes. The first test is there for the product behind it.
fn eight_within(len: usize, end: usize, q: usize) -> bool
    ensures { result ≡ leb (8 * q + 64) (min end (8 * len)) }
{
    if end / 8 < q {
        return false;
    }
    within(len, end, 8 * q, 64)
}

// The eight bytes from byte q on, among the first end bits, as a number.
pub fn read_eight_bytes(s: &[u8], end: usize, q: usize) -> Option<(u64, usize)>
    ensures { result ≡ read_bits (bits_to s.now end) (8 * q) 64 }
{
    if eight_within(s.len(), end, q) {
        return Some((eight_at(s, q), 8 * q + 64));
    }
    None
}

// The number w in the eight bytes from byte q on, within the first end bits.
pub fn put_eight_bytes(buf: &mut [u8], end: usize, q: usize, w: u64) -> Option<usize>
    ensures { left result buf.new ≡ put_number buf.old end (8 * q) 64 w }
{
    if eight_within(buf.len(), end, q) {
        put_eight(buf, q, w);
        return Some(8 * q + 64);
    }
    None
}
