// Bytes into a buffer that has room for them. Each function answers the position after what it put.
ghost use Rattle.std.specs.Prelude.{◌≡◌, ◌+◌, ◌≤◌, length, take};
ghost use Rattle.envelope.specs.Numbers.{number, Put};

// The first n bytes of a slice, one by one: the archive is to need nothing of C but memset, and copies of slices may become calls of its memcpy.
// (`fragments` has a loop of its own: with its `requires` this is no function for another crate.)
pub(crate) fn put_bytes(out: &mut [u8], at: usize, src: &[u8], n: usize) -> usize
    requires { (at + n ≤ length out.old) × (n ≤ length src.now) }
    ensures { Put out.old out.new at result (take n src.now) }
{
    for i in 0..n {
        out[at + i] = src[i];
    }
    at + n
}

// A number in groups of seven bits, lowest group first.
pub(crate) fn put_number(out: &mut [u8], at: usize, n: u64) -> usize
    requires { at + length (number n) ≤ length out.old }
    ensures { Put out.old out.new at result (number n) }
{
    let mut v = n;
    let mut p = at;
    while 128 <= v {
        out[p] = (128 + v % 128) as u8;
        v /= 128;
        p += 1;
    }
    out[p] = v as u8;
    p + 1
}
