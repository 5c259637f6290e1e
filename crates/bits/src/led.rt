// A number, and a run of bits behind it: a string's length and its contents, with what stands before them.
ghost use Rattle.std.specs.Prelude.{◌≡◌, ◌++◌, ◌+◌, ◌*◌, ◌^◌, ◌<◌, ◌≤◌, min, leb, length};
ghost use Rattle.bits.specs.Bits.{bits_n, Lies, run};
ghost use Rattle.bits.specs.Put.{left, put_bits, put_led};

use crate::common::pow2;
use crate::copier::copy_run;
use crate::extent::within;
use crate::reader::number_at;
use crate::writer::{holds, put_number_at};

// So many bits lie within eight bytes wherever they stand.
const JOINED: usize = 56;

// Both as one number.
fn put_joined(buf: &mut [u8], at: usize, n: usize, v: u64, src: &[u8], from: usize, k: usize)
    requires { (n + k ≤ 56) × (v < 2 ^ n) × Lies buf.old at (n + k) × Lies src.now from k }
    ensures { buf.new ≡ put_bits buf.old at (bits_n n v ++ run src.now from k) }
{
    let w = number_at(src, from, k);
    put_number_at(buf, at, n + k, v * pow2(k) + w);
}

// Both: as one number, or as much of the run as one number holds with the number before it, and then the rest.
fn put_both(buf: &mut [u8], at: usize, n: usize, v: u64, src: &[u8], from: usize, count: usize)
    requires { (n ≤ 56) × (v < 2 ^ n) × Lies buf.old at (n + count) × Lies src.now from count }
    ensures { buf.new ≡ put_bits buf.old at (bits_n n v ++ run src.now from count) }
{
    if n + count <= JOINED {
        put_joined(buf, at, n, v, src, from, count);
    } else {
        let k = JOINED - n;
        put_joined(buf, at, n, v, src, from, k);
        copy_run(buf, at + JOINED, src, from + k, count - k);
    }
}

// Whether both lie within the first end bits of len bytes. No sum here wraps.
fn has_room(len: usize, end: usize, at: usize, n: usize, count: usize) -> bool
    ensures { result ≡ leb (at + (n + count)) (min end (8 * len)) }
{
    n <= end && count <= end - n && within(len, end, at, n + count)
}

// The number v in n bits, at most 56 of them, and behind it the count bits at a place within the first send bits of src.
pub fn put_led(
    buf: &mut [u8],
    end: usize,
    at: usize,
    n: usize,
    v: u64,
    src: &[u8],
    send: usize,
    from: usize,
    count: usize,
) -> Option<usize>
    ensures { left result buf.new ≡ put_led buf.old end at n v src.now send from count }
{
    if n <= JOINED
        && holds(n, v)
        && within(src.len(), send, from, count)
        && has_room(buf.len(), end, at, n, count)
    {
        put_both(buf, at, n, v, src, from, count);
        return Some(at + (n + count));
    }
    None
}
