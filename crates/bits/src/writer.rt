// A number written as a run of bits: by eight bytes where they are there, else a turn for each byte that it touches; every other bit stays.
ghost use Rattle.std.specs.Prelude.{◌≡◌, ◌&&◌, ◌+◌, ◌-◌, ◌*◌, ◌%◌, ◌^◌, ◌<◌, ◌≤◌, leb, ltb, length};
ghost use Rattle.std.proofs.lemmas.List.Edits.{sets};
ghost use Rattle.bits.specs.Bits.{bits_n, Lies, num_of};
ghost use Rattle.bits.specs.Put.{left, put_bits, put_number, to_byte};

use crate::common::{in_one, pow2};
use crate::eight_bytes::{in_eight, put_in_eight};
use crate::extent::within;

// The byte x with the k bits of p after its first r.
fn with_piece(x: u8, r: usize, k: usize, p: u64) -> u8
    requires { (r + k ≤ 8) × (p < 2 ^ k) }
    ensures { result ≡ num_of (sets (bits_n 8 x) r (bits_n k p)) }
{
    let low = pow2(8 - r - k);
    let above = pow2(8 - r);
    let w = x as u64;
    (w / above * above + p * low + w % low) as u8
}

// The n low bits of v put at a place, byte by byte. A turn puts as many bits as its byte has left, so the loop is no `for`.
fn put_by_bytes(buf: &mut [u8], at: usize, n: usize, v: u64)
    requires { Lies buf.old at n × (n ≤ 64) }
    ensures { buf.new ≡ put_bits buf.old at (bits_n n v) }
{
    let mut i: usize = 0;
    while i < n {
        let p = at + i;
        let k = (n - i).min(8 - p % 8);
        let q = p / 8;
        let part = (v >> (n - i - k)) % pow2(k);
        buf[q] = with_piece(buf[q], p % 8, k, part);
        i += k;
    }
}

// The number v put in n bits that lie within eight bytes, or do not.
fn put_wider(buf: &mut [u8], at: usize, n: usize, v: u64)
    requires { Lies buf.old at n × (n ≤ 64) × (v < 2 ^ n) }
    ensures { buf.new ≡ put_bits buf.old at (bits_n n v) }
{
    if in_eight(buf.len(), at, n) {
        put_in_eight(buf, at, n, v);
    } else {
        put_by_bytes(buf, at, n, v);
    }
}

// The number v put in n bits at a place: most fields lie within one byte.
pub(crate) fn put_number_at(buf: &mut [u8], at: usize, n: usize, v: u64)
    requires { Lies buf.old at n × (n ≤ 64) × (v < 2 ^ n) }
    ensures { buf.new ≡ put_bits buf.old at (bits_n n v) }
{
    if in_one(at, n) {
        let q = at / 8;
        buf[q] = with_piece(buf[q], at % 8, n, v);
    } else {
        put_wider(buf, at, n, v);
    }
}

// Zeros from a place within the first end bits up to a whole byte.
pub fn pad(buf: &mut [u8], end: usize, at: usize) -> Option<usize>
    ensures { left result buf.new ≡ put_number buf.old end at (to_byte at) 0 }
{
    put_bits(buf, end, at, (8 - at % 8) % 8, 0)
}

// Whether n bits, at most 64 of them, hold v.
pub(crate) fn holds(n: usize, v: u64) -> bool
    ensures { result ≡ (leb n 64 && ltb v (2 ^ n)) }
{
    n == 64 || n < 64 && v < pow2(n)
}

// The number v in n bits, at a place within the first end bits.
pub fn put_bits(buf: &mut [u8], end: usize, at: usize, n: usize, v: u64) -> Option<usize>
    ensures { left result buf.new ≡ put_number buf.old end at n v }
{
    if holds(n, v) && within(buf.len(), end, at, n) {
        put_number_at(buf, at, n, v);
        return Some(at + n);
    }
    None
}
