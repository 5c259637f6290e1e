// Bytes into a range that has room for them, and numbers in two bytes.
ghost use Rattle.std.specs.Prelude.{◌≡◌, ◌+◌, ◌/◌, ◌%◌, ◌≤◌, length};
ghost use Rattle.std.proofs.lemmas.List.Edits.{sets};
ghost use Rattle.elements.specs.Arguments.{flag};
ghost use Rattle.layout.specs.Layout.{of_two};

// One by one: the archive is to need nothing of C but memset, and a copy of slices may become a call of its memcpy.
pub(crate) fn put_bytes(out: &mut [u8], at: usize, src: &[u8])
    requires { at + length src.now ≤ length out.old }
    ensures { out.new ≡ sets out.old at src.now }
{
    for i in 0..src.len() {
        out[at + i] = src[i];
    }
}

// The two bytes of a number.
pub(crate) fn high(n: u64) -> u8
    ensures { result ≡ n / 256 % 256 }
{
    (n / 256 % 256) as u8
}

pub(crate) fn low(n: u64) -> u8
    ensures { result ≡ n % 256 }
{
    (n % 256) as u8
}

pub(crate) fn of_two(high: u8, low: u8) -> u16
    ensures { result ≡ of_two high low }
{
    high as u16 * 256 + low as u16
}

pub(crate) fn flag_code(b: bool) -> u8
    ensures { result ≡ flag b }
{
    u8::from(b)
}
