// What every crate may know: laws of the words that every definition uses (a choice by a test, tests joined, a contract that is one equation), and
// the limits and refusals of document 01 that more than one crate keeps.

#![tactic(auto)]

ghost use Rattle.std.specs.Prelude.{◌≡◌};
ghost use Rattle.words.specs.Limits.{unwritten_number};

// Why a writer wrote nothing, and every byte is as it was: a lent buffer under the least size; an argument that breaks a size, its type or its codes, or
// is more than the lent bytes hold.
#[derive(Clone, Copy)]
pub enum Unwritten {
    Room,
    Shape,
}

impl Unwritten {
    // Document 01's number.
    pub fn number(self) -> u64
        ensures { result ≡ unwritten_number self }
    {
        match self {
            Unwritten::Room => Limit::ROOM,
            Unwritten::Shape => Limit::SHAPE,
        }
    }
}

// A number that a call is held to.
#[derive(Clone, Copy)]
pub struct Limit {
    pub most: usize,
}

impl Limit {
    // The bits of a CPDLC message, at most.
    pub const MESSAGE_BITS: usize = 16383;
    // The bytes of a lent output buffer, at least.
    pub const BUFFER_BYTES: usize = 2112;
    // Document 01's numbers of a lent output buffer that is too small, and of an argument that breaks its type or a size.
    pub const ROOM: u64 = 1;

    pub const SHAPE: u64 = 2;
}
