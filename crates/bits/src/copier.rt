// A run of bits copied from a place of one slice straight to a place of another, by eight bytes, bytes and shifts.
ghost use Rattle.std.specs.Prelude.{◌≡◌, ◌+◌, ◌-◌, ◌*◌, ◌/◌, ◌%◌, ◌^◌, ◌<◌, ◌≤◌, length};
ghost use Rattle.bits.specs.Bits.{Lies, run};
ghost use Rattle.bits.specs.Put.{put_bits, copy_run, left};

use crate::eight_bytes::{eight_of_nine, put_eight};
use crate::extent::within;
use crate::reader::number_at;
use crate::writer::put_number_at;

// Eight bits, after the first r of two bytes.
fn eight(a: u64, b: u64, r: usize) -> u8
    requires { (a < 256) × (b < 256) × (r < 8) }
    ensures { result ≡ (a * 256 + b) / 2 ^ (8 - r) % 256 }
{
    let w = a * 256 + b;
    ((w >> (8 - r)) % 256) as u8
}

// m whole bytes to the byte at base, each from two bytes of the source.
fn copy_bytes(dst: &mut [u8], base: usize, src: &[u8], at: usize, m: usize)
    requires { (m ≤ length dst.old - base) × (m ≤ length src.now - (at / 8 + 1)) }
    ensures { dst.new ≡ put_bits dst.old (8 * base) (run src.now at (8 * m)) }
{
    let q = at / 8;
    let r = at % 8;
    for i in 0..m {
        dst[base + i] = eight(src[q + i] as u64, src[q + i + 1] as u64, r);
    }
}

// m times eight bytes to the byte at base, each from nine bytes of the source.
fn copy_eights(dst: &mut [u8], base: usize, src: &[u8], at: usize, m: usize)
    requires { (8 * m ≤ length dst.old - base) × (8 * m ≤ length src.now - (at / 8 + 1)) }
    ensures { dst.new ≡ put_bits dst.old (8 * base) (run src.now at (64 * m)) }
{
    let q = at / 8;
    let r = at % 8;
    for i in 0..m {
        let x = eight_of_nine(src, q + 8 * i, r);
        put_eight(dst, base + 8 * i, x);
    }
}

// m whole bytes to the byte at base, eight at a time as long as there are eight.
fn copy_whole(dst: &mut [u8], base: usize, src: &[u8], at: usize, m: usize)
    requires { (m ≤ length dst.old - base) × (m ≤ length src.now - (at / 8 + 1)) × (at + 8 * m ≤ 8 * length src.now) × (at + 8 * m < 2 ^ 64) }
    ensures { dst.new ≡ put_bits dst.old (8 * base) (run src.now at (8 * m)) }
{
    let k = m / 8;
    copy_eights(dst, base, src, at, k);
    copy_bytes(dst, base + 8 * k, src, at + 64 * k, m % 8);
}

// At most 64 bits, as one number.
fn copy_few(dst: &mut [u8], to: usize, src: &[u8], at: usize, n: usize)
    requires { Lies dst.old to n × Lies src.now at n × (n ≤ 64) }
    ensures { dst.new ≡ put_bits dst.old to (run src.now at n) }
{
    if n != 0 {
        let v = number_at(src, at, n);
        put_number_at(dst, to, n, v);
    }
}

// How many whole bytes of n bits at a place have a byte after them in len bytes: all but the last of them at least.
fn whole(len: usize, at: usize, n: usize) -> usize
    ensures { (8 * result ≤ n) × (result ≤ len - (at / 8 + 1)) × (at + n ≤ 8 * len → n ≤ 8 * result + 15) }
{
    (n / 8).min(len.saturating_sub(at / 8 + 1))
}

// The bits up to the destination's next byte, whole bytes, and the bits that are left.
fn copy_straight(dst: &mut [u8], to: usize, src: &[u8], at: usize, n: usize)
    requires { Lies dst.old to n × Lies src.now at n }
    ensures { dst.new ≡ put_bits dst.old to (run src.now at n) }
{
    let h = n.min((8 - to % 8) % 8);
    copy_few(dst, to, src, at, h);
    let m = whole(src.len(), at + h, n - h);
    copy_whole(dst, (to + h) / 8, src, at + h, m);
    copy_few(dst, to + h + 8 * m, src, at + h + 8 * m, n - h - 8 * m);
}

// At most 112 bits, as two numbers, of which each lies within eight bytes wherever it stands.
fn copy_two(dst: &mut [u8], to: usize, src: &[u8], at: usize, n: usize)
    requires { Lies dst.old to n × Lies src.now at n × (56 ≤ n) × (n ≤ 112) }
    ensures { dst.new ≡ put_bits dst.old to (run src.now at n) }
{
    copy_few(dst, to, src, at, 56);
    copy_few(dst, to + 56, src, at + 56, n - 56);
}

// A run that is longer than 56 bits.
fn copy_longer(dst: &mut [u8], to: usize, src: &[u8], at: usize, n: usize)
    requires { Lies dst.old to n × Lies src.now at n × (56 ≤ n) }
    ensures { dst.new ≡ put_bits dst.old to (run src.now at n) }
{
    if n <= 112 {
        copy_two(dst, to, src, at, n);
    } else {
        copy_straight(dst, to, src, at, n);
    }
}

// A run that a number or two hold goes as those: most fields of a message are that short.
pub(crate) fn copy_run(dst: &mut [u8], to: usize, src: &[u8], at: usize, n: usize)
    requires { Lies dst.old to n × Lies src.now at n }
    ensures { dst.new ≡ put_bits dst.old to (run src.now at n) }
{
    if n <= 56 {
        copy_few(dst, to, src, at, n);
    } else {
        copy_longer(dst, to, src, at, n);
    }
}

// n bits at a place within the first send bits of src, to a place within the first dend bits of dst.
pub fn copy_bits(
    dst: &mut [u8],
    dend: usize,
    to: usize,
    src: &[u8],
    send: usize,
    at: usize,
    n: usize,
) -> Option<usize>
    ensures { left result dst.new ≡ copy_run dst.old dend to src.now send at n }
{
    if within(src.len(), send, at, n) && within(dst.len(), dend, to, n) {
        copy_run(dst, to, src, at, n);
        return Some(to + n);
    }
    None
}
