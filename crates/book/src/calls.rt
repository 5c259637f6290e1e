// What the host asks of a book.
ghost use Rattle.std.specs.Prelude.{◌≡◌};
ghost use Rattle.book.specs.Books.{close_at, count_at, empty_at, job_at, left, open_at};

use crate::BookRefusal;
use crate::eight::{clear_eight, eight_at, put_eight};
use crate::loaded::{BYTES, NUMBERS, load};
use crate::numbers::{bit_of, lowest_free, open_count};

// No number is open. The bytes may have been anything: this is also how a book begins.
pub fn empty(b: &mut [u8]) -> Result<u64, BookRefusal>
    ensures { left result b.new ≡ empty_at b.old }
{
    if b.len() != BYTES {
        return Err(BookRefusal::Shape);
    }
    for i in 0..NUMBERS + 1 {
        clear_eight(b, 8 * i);
    }
    Ok(0)
}

// The lowest free number is opened for a job, and given.
#[tactic(auto, unfolding(crate::specs::Books::open_at, crate::specs::Books::load_at))]
pub fn open(b: &mut [u8], job: u64) -> Result<u64, BookRefusal>
    ensures { left result b.new ≡ open_at b.old job }
{
    if job == 0 {
        return Err(BookRefusal::Shape);
    }
    let opened = load(b)?;
    let n = lowest_free(opened);
    if n == NUMBERS {
        return Err(BookRefusal::AllOpen);
    }
    put_eight(b, 0, opened + bit_of(n));
    put_eight(b, 8 * (n + 1), job);
    Ok(n as u64)
}

// A number that is open is closed.
#[tactic(auto, unfolding(crate::specs::Books::close_at, crate::specs::Books::load_at))]
pub fn close(b: &mut [u8], number: u64) -> Result<u64, BookRefusal>
    ensures { left result b.new ≡ close_at b.old number }
{
    let opened = load(b)?;
    if NUMBERS as u64 <= number {
        return Err(BookRefusal::NotOpen);
    }
    let n = number as usize;
    let job = eight_at(b, 8 * (n + 1));
    if job == 0 {
        return Err(BookRefusal::NotOpen);
    }
    put_eight(b, 0, opened - bit_of(n));
    put_eight(b, 8 * (n + 1), 0);
    Ok(0)
}

// How many numbers are open.
#[tactic(auto, unfolding(crate::specs::Books::count_at, crate::specs::Books::load_at))]
pub fn count(b: &[u8]) -> Result<u64, BookRefusal>
    ensures { result ≡ count_at b.now }
{
    let opened = load(b)?;
    Ok(open_count(opened))
}

// The job that a number is open for; 0 where it is not open, or there is no such number or no book.
pub fn job(b: &[u8], number: u64) -> u64
    ensures { result ≡ job_at b.now number }
{
    let Ok(_) = load(b) else {
        return 0;
    };
    if NUMBERS as u64 <= number {
        return 0;
    }
    eight_at(b, 8 * (number as usize + 1))
}
