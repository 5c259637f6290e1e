// Bytes and zeros into a record that has room for them.
ghost use Rattle.std.specs.Prelude.{◌≡◌, ◌+◌, ◌<◌, ◌≤◌, length, set};
ghost use Rattle.std.proofs.lemmas.List.Edits.{sets};
ghost use Rattle.fragments.specs.Record.{zeros};

pub(crate) fn put_bytes(out: &mut [u8], at: usize, src: &[u8])
    requires { at + length src.now ≤ length out.old }
    ensures { out.new ≡ sets out.old at src.now }
{
    for i in 0..src.len() {
        out[at + i] = src[i];
    }
}

// Zero to a byte. It is written only where it is not there yet: of a loop that always writes, the compiler would make a call of C's memset,
// and the archive needs no library.
#[tactic(auto, using(crate::proofs::Ranges::clear_same))]
fn clear(out: &mut [u8], at: usize)
    requires { at < length out.old }
    ensures { out.new ≡ set out.old at 0 }
{
    if out[at] != 0 {
        out[at] = 0;
    }
}

pub(crate) fn put_zeros(out: &mut [u8], at: usize, n: usize)
    requires { at + n ≤ length out.old }
    ensures { out.new ≡ sets out.old at (zeros n) }
{
    for i in 0..n {
        clear(out, at + i);
    }
}
