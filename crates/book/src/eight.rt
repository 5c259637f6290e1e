// A number of eight bytes, the most significant first.
ghost use Rattle.std.specs.Prelude.{◌≡◌, ◌+◌, ◌≤◌, length};
ghost use Rattle.std.proofs.lemmas.List.Edits.{sets};
ghost use Rattle.book.specs.Books.{eight_at, octets};

fn wide(x: u8) -> u64
    ensures { result ≡ x }
{
    x as u64
}

// The number at a byte position.
pub(crate) fn eight_at(b: &[u8], at: usize) -> u64
    requires { at + 8 ≤ length b.now }
    ensures { result ≡ eight_at b.now at }
{
    let mut v: u64 = 0;
    for i in 0..8 {
        v = v * 256 + wide(b[at + i]);
    }
    v
}

// A number to a byte position.
pub(crate) fn put_eight(b: &mut [u8], at: usize, v: u64)
    requires { at + 8 ≤ length b.old }
    ensures { b.new ≡ sets b.old at (octets 8 v) }
{
    for i in 0..8 {
        b[at + i] = ((v >> (8 * (7 - i))) % 256) as u8;
    }
}

// Zero to a byte position. It is written only where it is not there yet: of a loop that always writes, the compiler would make a call of
// C's memset, and the archive needs no library.
pub(crate) fn clear_eight(b: &mut [u8], at: usize)
    requires { at + 8 ≤ length b.old }
    ensures { b.new ≡ sets b.old at (octets 8 0) }
{
    if eight_at(b, at) == 0 {
        return;
    }
    put_eight(b, at, 0);
}
