// Eight bytes as one number, at any byte of a slice.
ghost use Rattle.std.specs.Prelude.{◌≡◌, true, ◌+◌, ◌-◌, ◌*◌, ◌/◌, ◌%◌, ◌^◌, ◌<◌, ◌≤◌, length};
ghost use Rattle.std.proofs.lemmas.List.Edits.{sets};
ghost use Rattle.bits.specs.Bits.{bits_n, Lies, num_of, run};
ghost use Rattle.bits.specs.Put.{put_bits};

use crate::common::pow2;

// The number that four bytes say. A loop of exactly four turns: the compiler makes one load of it.
fn four_at(s: &[u8], q: usize) -> u64
    requires { q + 4 ≤ length s.now }
    ensures { result ≡ num_of (run s.now (8 * q) 32) }
{
    let mut v: u64 = 0;
    for i in 0..4 {
        v = v * 256 + s[q + i] as u64;
    }
    v
}

// The number that eight bytes say. The compiler makes one load of it where it sees two of four bytes, and not always of eight bytes in a row,
// as `u64::from_be_bytes` has them.
pub(crate) fn eight_at(s: &[u8], q: usize) -> u64
    requires { q + 8 ≤ length s.now }
    ensures { result ≡ num_of (run s.now (8 * q) 64) }
{
    four_at(s, q) * 4294967296 + four_at(s, q + 4)
}

// The number that 64 bits say, after the first r of nine bytes.
pub(crate) fn eight_of_nine(s: &[u8], q: usize, r: usize) -> u64
    requires { (q + 9 ≤ length s.now) × (r < 8) }
    ensures { result ≡ num_of (run s.now (8 * q + r) 64) }
{
    let w = eight_at(s, q);
    let b = s[q + 8] as u64;
    (w << r) + (b >> (8 - r))
}

// A number to eight bytes. The compiler makes one store of it.
pub(crate) fn put_eight(buf: &mut [u8], q: usize, w: u64)
    requires { q + 8 ≤ length buf.old }
    ensures { buf.new ≡ put_bits buf.old (8 * q) (bits_n 64 w) }
{
    for i in 0..8 {
        buf[q + i] = ((w >> (56 - 8 * i)) % 256) as u8;
    }
}

// Whether n bits at a place within len bytes, one bit at least, lie within eight of them.
pub(crate) fn in_eight(len: usize, at: usize, n: usize) -> bool
    requires { n ≤ 64 }
    ensures { result ≡ true → (8 ≤ len) × (0 < n) × (at % 8 + n ≤ 64) }
{
    8 <= len && 0 < n && at % 8 + n <= 64
}

// The n bits of a number after its first r.
fn part_of(w: u64, r: usize, n: usize) -> u64
    requires { (r + n ≤ 64) × (0 < n) }
    ensures { result ≡ w / 2 ^ (64 - r - n) % 2 ^ n }
{
    (w << r) >> (64 - n)
}

// The number that n bits say that lie within eight bytes: the last eight, where the bits stand behind their first byte.
pub(crate) fn number_in_eight(s: &[u8], at: usize, n: usize) -> u64
    requires { Lies s.now at n × (8 ≤ length s.now) × (0 < n) × (at % 8 + n ≤ 64) }
    ensures { result ≡ num_of (run s.now at n) }
{
    let q = (at / 8).min(s.len() - 8);
    part_of(eight_at(s, q), at - 8 * q, n)
}

// A number with the n bits of v after its first r.
fn with_part(w: u64, r: usize, n: usize, v: u64) -> u64
    requires { (r + n ≤ 64) × (0 < n) × (v < 2 ^ n) }
    ensures { result ≡ num_of (sets (bits_n 64 w) r (bits_n n v)) }
{
    let old = part_of(w, r, n);
    let low = pow2(64 - r - n);
    w - old * low + v * low
}

// The number v put in n bits that lie within eight bytes.
pub(crate) fn put_in_eight(buf: &mut [u8], at: usize, n: usize, v: u64)
    requires { Lies buf.old at n × (8 ≤ length buf.old) × (0 < n) × (at % 8 + n ≤ 64) × (v < 2 ^ n) }
    ensures { buf.new ≡ put_bits buf.old at (bits_n n v) }
{
    let q = (at / 8).min(buf.len() - 8);
    let w = eight_at(buf, q);
    let x = with_part(w, at - 8 * q, n, v);
    put_eight(buf, q, x);
}
