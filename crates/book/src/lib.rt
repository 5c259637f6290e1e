// The book of message identification numbers (document 02, E2): which of the numbers 0 to 63 are open in one direction of a dialogue, and
// the job that each belongs to. The host keeps it in a lent range of a fixed size, beside the record of the dialogue, and the book does not
// look at that.
// Every function takes every argument; what it refuses changes nothing. A call answers a message identification number or a count, 0 where there
// is nothing to say; or why it is refused.
#![tactic(auto)]

ghost use Rattle.std.specs.Prelude.{◌≡◌};
ghost use Rattle.book.specs.Books.{refusal_number};

use words::Limit;

mod calls; // calls.rt: emptying, opening, closing, the count and the job of a number
mod eight; // eight.rt: a number of eight bytes
mod loaded; // loaded.rt: what a range of bytes says
mod numbers; // numbers.rt: the open numbers as one number of 64 bits

pub use calls::{close, count, empty, job, open};

// Why a call is refused.
#[derive(Drop)]
pub enum BookRefusal {
    // the range is no book, or the job is 0
    Shape,
    // all 64 numbers are open
    AllOpen,
    // the number to close is not open, or above 63
    NotOpen,
}

impl BookRefusal {
    // The number in the documents' tables.
    pub fn number(self) -> u64
        ensures { result ≡ refusal_number self }
    {
        match self {
            BookRefusal::Shape => Limit::SHAPE,
            BookRefusal::AllOpen => 7,
            BookRefusal::NotOpen => 8,
        }
    }
}
