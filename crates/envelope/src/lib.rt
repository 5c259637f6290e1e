// The broker's envelope (document 01, "The broker envelope"): kind, job number and bit count, each in groups of seven
// bits, and a body of that many bits. An envelope is read at a byte position of lent bytes and written into a lent buffer.
#![tactic(auto)]

ghost use Rattle.std.specs.Prelude.{◌≡◌};
ghost use Rattle.envelope.specs.Envelopes.{refusal_number};

pub mod groups; // groups.rt: the number at a position
pub mod reading; // reading.rt: the envelope at a position
pub mod writing; // writing.rt: an envelope into a lent buffer
mod putting; // putting.rt: bytes and numbers into a buffer

use words::Limit;

// Why an envelope is refused.
#[derive(Clone, Copy)]
pub enum EnvelopeRefusal {
    // it ends inside
    Cut,
    // a number not in its shortest form or above 2^64 - 1, or job 0
    Groups,
    // a kind that is not 1, 2 or 3
    Kind,
    // a bit count over the limit, a padding bit that is 1, or a refusal of other than 8 bits
    Size,
}

impl EnvelopeRefusal {
    // Document 01's number.
    pub fn number(self) -> u64
        ensures { result ≡ refusal_number self }
    {
        match self {
            EnvelopeRefusal::Cut => 20,
            EnvelopeRefusal::Groups => 21,
            EnvelopeRefusal::Kind => 22,
            EnvelopeRefusal::Size => 23,
        }
    }
}

// An envelope in lent bytes: what it says, where its body begins, and where the next envelope begins.
#[derive(Clone, Copy)]
pub struct Envelope {
    pub kind: u64,
    pub job: u64,
    pub bits: u64,
    pub body: usize,
    pub next: usize,
}

impl Envelope {
    // The largest bit count.
    pub const MOST_BITS: u64 = Limit::MESSAGE_BITS as u64;
    // The bytes that a lent output buffer has at least.
    pub const ROOM: usize = Limit::BUFFER_BYTES;
    // The kind that carries the number of a refusal, and the bits that the number takes.
    pub const REFUSAL: u64 = 3;

    pub const REFUSAL_BITS: u64 = 8;
}

fn wide(x: u8) -> u64
    ensures { result ≡ x }
{
    x as u64
}
