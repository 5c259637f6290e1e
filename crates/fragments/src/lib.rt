// Envelopes as they arrive (document 02, E4): a reader that keeps an unfinished envelope between calls, in a lent range of one
// size, and hands out each finished one. A fragment is read together with what is held, by the reader of whole strings.
#![tactic(auto)]

ghost use Rattle.std.specs.Prelude.{◌≡◌};
ghost use Rattle.fragments.specs.Mail.{untaken_number};

use envelope::{Envelope, EnvelopeRefusal};
use words::Limit;

pub mod ending; // ending.rt: the input has ended
pub mod reporting; // reporting.rt: the text that is printed of what arrives
pub mod stored; // stored.rt: the record, fresh and loaded
pub mod taking; // taking.rt: a fragment
mod decimals; // decimals.rt: numbers in decimal digits
mod missing; // missing.rt: what an unfinished envelope lacks
mod putting; // putting.rt: bytes and zeros into the record

// What a call answers that is not refused.
#[derive(Clone, Copy)]
pub enum Taken {
    // an envelope is finished: where it stands in the record, and the bytes of the fragment that it took
    Whole(Envelope, usize),
    // none is finished, and all bytes of the fragment were taken
    Part(usize),
}

// Why a call is refused.
#[derive(Clone, Copy)]
pub enum Untaken {
    // the input is refused, here or by an earlier call
    Refused(EnvelopeRefusal),
    // the range is no record
    Shape,
}

impl Untaken {
    // Document 01's number.
    pub fn number(self) -> u64
        ensures { result ≡ untaken_number self }
    {
        match self {
            Untaken::Refused(r) => r.number(),
            Untaken::Shape => Limit::SHAPE,
        }
    }
}
