// Numbers in decimal digits, into a buffer that has room for them.
ghost use Rattle.std.specs.Prelude.{◌≡◌, ◌+◌, ◌≤◌, length};
ghost use Rattle.envelope.specs.Numbers.{Put};
ghost use Rattle.fragments.specs.Texts.{decimal};

// How many decimal digits a number has.
fn digit_count(n: u64) -> usize
    ensures { result ≡ length (decimal n) }
{
    let mut v = n;
    let mut k: usize = 1;
    while 10 <= v {
        v = v / 10;
        k += 1;
    }
    k
}

// A number in decimal digits, the last one first.
pub(crate) fn put_decimal(out: &mut [u8], at: usize, n: u64) -> usize
    requires { at + length (decimal n) ≤ length out.old }
    ensures { Put out.old out.new at result (decimal n) }
{
    let k = digit_count(n);
    let mut v = n;
    let mut i = k;
    while 10 <= v {
        i -= 1;
        out[at + i] = (48 + v % 10) as u8;
        v = v / 10;
    }
    out[at] = (48 + v) as u8;
    at + k
}
