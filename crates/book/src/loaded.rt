// What a range of bytes says.
ghost use Rattle.std.specs.Prelude.{◌≡◌, length};
ghost use Rattle.book.specs.Books.{book_bytes, jobs_in, load_at, marks};

use crate::BookRefusal;
use crate::eight::eight_at;
use crate::numbers::mark;

// The bytes of a book: the open numbers, and the jobs of 64 numbers, eight bytes each.
pub(crate) const BYTES: usize = 520;

// How many numbers there are.
pub(crate) const NUMBERS: usize = 64;

// The open numbers, by the jobs.
fn marked(b: &[u8]) -> u64
    requires { length b.now ≡ book_bytes }
    ensures { result ≡ marks (jobs_in b.now) }
{
    let mut m: u64 = 0;
    let mut i: usize = NUMBERS;
    while 0 < i {
        m = 2 * m + mark(eight_at(b, 8 * i));
        i -= 1;
    }
    m
}

// The open numbers of a book. The jobs decide which are open, and the first eight bytes must agree.
pub(crate) fn load(b: &[u8]) -> Result<u64, BookRefusal>
    ensures { result ≡ load_at b.now }
{
    if b.len() != BYTES {
        return Err(BookRefusal::Shape);
    }
    let opened = marked(b);
    if eight_at(b, 0) == opened {
        return Ok(opened);
    }
    Err(BookRefusal::Shape)
}
