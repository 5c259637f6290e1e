// Whether a run of bits lies within lent bytes.
ghost use Rattle.std.specs.Prelude.{◌≡◌, ◌+◌, ◌*◌, min, leb};

// Whether n bits at a place lie within the first end bits of len bytes. No sum or product here passes 2^63, whatever the four numbers are.
pub fn within(len: usize, end: usize, at: usize, n: usize) -> bool
    ensures { result ≡ leb (at + n) (min end (8 * len)) }
{
    if end < at || end - at < n {
        return false;
    }
    let after = at + n;
    after / 8 + (after % 8 + 7) / 8 <= len
}
