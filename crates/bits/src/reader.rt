// A run of bits read as a number: by eight bytes where they are there, else a turn for each byte that it touches.
ghost use Rattle.std.specs.Prelude.{◌≡◌, true, ◌+◌, ◌-◌, ◌*◌, ◌/◌, ◌%◌, ◌^◌, ◌<◌, ◌≤◌, length};
ghost use Rattle.bits.specs.Bits.{bits_to, Lies, num_of, run};
ghost use Rattle.bits.specs.Read.{read_bits};

use crate::common::{in_one, pow2};
use crate::eight_bytes::{in_eight, number_in_eight};
use crate::extent::within;

// k bits of a byte, after its first r.
fn piece(b: u8, r: usize, k: usize) -> u64
    requires { r + k ≤ 8 }
    ensures { result ≡ b / 2 ^ (8 - r - k) % 2 ^ k }
{
    b as u64 / pow2(8 - r - k) % pow2(k)
}

// The number that n bits at a place say, byte by byte. A turn takes as many bits as its byte has left, so the loop is no `for`.
fn number_by_bytes(s: &[u8], at: usize, n: usize) -> u64
    requires { Lies s.now at n × (n ≤ 64) }
    ensures { result ≡ num_of (run s.now at n) }
{
    let mut v: u64 = 0;
    let mut i: usize = 0;
    while i < n {
        let p = at + i;
        let k = (n - i).min(8 - p % 8);
        v = v * pow2(k) + piece(s[p / 8], p % 8, k);
        i += k;
    }
    v
}

// Whether n bits at a place lie within two bytes and not within one.
fn in_two(at: usize, n: usize) -> bool
    requires { n ≤ 64 }
    ensures { result ≡ true → (8 < at % 8 + n) × (at % 8 + n ≤ 16) }
{
    let touched = at % 8 + n;
    8 < touched && touched <= 16
}

// n bits of two bytes, after their first r.
fn piece_of_two(a: u8, b: u8, r: usize, n: usize) -> u64
    requires { r + n ≤ 16 }
    ensures { result ≡ (a * 256 + b) / 2 ^ (16 - r - n) % 2 ^ n }
{
    (a as u64 * 256 + b as u64) / pow2(16 - r - n) % pow2(n)
}

// The number that n bits at a place say that lie within two bytes, or eight, or do not.
fn number_over_bytes(s: &[u8], at: usize, n: usize) -> u64
    requires { Lies s.now at n × (n ≤ 64) }
    ensures { result ≡ num_of (run s.now at n) }
{
    if in_two(at, n) {
        let q = at / 8;
        return piece_of_two(s[q], s[q + 1], at % 8, n);
    }
    if in_eight(s.len(), at, n) {
        return number_in_eight(s, at, n);
    }
    number_by_bytes(s, at, n)
}

// The number that n bits at a place say: most fields lie within one byte.
pub(crate) fn number_at(s: &[u8], at: usize, n: usize) -> u64
    requires { Lies s.now at n × (n ≤ 64) }
    ensures { result ≡ num_of (run s.now at n) }
{
    if in_one(at, n) {
        return piece(s[at / 8], at % 8, n);
    }
    number_over_bytes(s, at, n)
}

// The n bits at a place among the first end bits, as a number.
pub fn read_bits(s: &[u8], end: usize, at: usize, n: usize) -> Option<(u64, usize)>
    ensures { result ≡ read_bits (bits_to s.now end) at n }
{
    if n <= 64 && within(s.len(), end, at, n) {
        return Some((number_at(s, at, n), at + n));
    }
    None
}
