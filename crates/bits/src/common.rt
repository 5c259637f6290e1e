// What reading, writing and copying share.
ghost use Rattle.std.specs.Prelude.{◌≡◌, true, ◌+◌, ◌%◌, ◌^◌, ◌<◌, ◌≤◌};

pub(crate) fn pow2(k: usize) -> u64
    requires { k < 64 }
    ensures { result ≡ 2 ^ k }
{
    1 << k
}

// Whether n bits at a place, one bit at least, lie within one byte.
pub(crate) fn in_one(at: usize, n: usize) -> bool
    requires { n ≤ 64 }
    ensures { result ≡ true → (0 < n) × (at % 8 + n ≤ 8) }
{
    0 < n && at % 8 + n <= 8
}
