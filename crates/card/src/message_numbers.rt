// The book of message identification numbers for the host. It stands beside the record of a dialogue, and no call takes both.
ghost use Rattle.std.specs.Prelude.{◌≡◌};
ghost use Rattle.book.specs.Books.{close_at, count_at, empty_at, job_at, open_at};
ghost use Rattle.layout.specs.Calls.{sent};
ghost use Rattle.card.specs.MessageNumbers.{answer_number, leaves};

use book::BookRefusal;

// What a call answers, in one number.
#[tactic(auto, unfolding(crate::specs::MessageNumbers::answer_number))]
fn answer_number(a: Result<u64, BookRefusal>) -> u64
    ensures { result ≡ answer_number a }
{
    match a {
        Ok(x) => 256 * (x % 256),
        Err(r) => r.number(),
    }
}

// No number is open. The bytes may have been anything.
#[unsafe(no_mangle)]
pub extern "C" fn peat_book_empty(book: &mut [u8]) -> u64
    ensures { sent result book.new ≡ leaves (empty_at book.old) }
{
    answer_number(book::empty(book))
}

// The lowest free number is opened for a job: that number; or the refusal.
#[unsafe(no_mangle)]
pub extern "C" fn peat_book_open(book: &mut [u8], job: u64) -> u64
    ensures { sent result book.new ≡ leaves (open_at book.old job) }
{
    answer_number(book::open(book, job))
}

// A number that is open is closed; or the refusal.
#[unsafe(no_mangle)]
pub extern "C" fn peat_book_close(book: &mut [u8], number: u64) -> u64
    ensures { sent result book.new ≡ leaves (close_at book.old number) }
{
    answer_number(book::close(book, number))
}

// How many numbers are open; or the refusal.
#[unsafe(no_mangle)]
pub extern "C" fn peat_book_count(book: &[u8]) -> u64
    ensures { result ≡ answer_number (count_at book.now) }
{
    answer_number(book::count(book))
}

// The job that a number is open for; 0 where it is not open, or the bytes are no book.
#[unsafe(no_mangle)]
pub extern "C" fn peat_book_job(book: &[u8], number: u64) -> u64
    ensures { result ≡ job_at book.now number }
{
    book::job(book, number)
}
