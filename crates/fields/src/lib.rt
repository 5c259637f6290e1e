// Fields of X.691, unaligned: a reader and a writer for each kind of field, at any bit position of lent bytes.
// Readers look at the first `end` bits of the slice; a fault is the field's own, and is handed up unchanged.
// Writers write the whole field, or refuse and change nothing.
#![tactic(auto)]

ghost use Rattle.std.specs.Prelude.{◌≡◌};
ghost use Rattle.fields.specs.Refusals.{number_of, packed};

mod later;
mod lengths;
mod numbers;
mod strings;

pub use later::{addition_count, additions, additions_there};
pub use lengths::{length, length_within, put_length};
pub use numbers::{
    bit_field, extensible_index, extension_bit, put_extensible_index, put_extension_bit, put_whole,
    refused_at, whole, width,
};
pub use strings::{Lead, contents, put_led_string, put_string, sized, string};

// What a decoder refuses for, with the number that document 01 gives it.
#[derive(Clone, Copy)]
pub enum Fault {
    Short = 10,
    Range = 11,
    Extension = 12,
    LengthForm = 13,
    Limit = 14,
    Tail = 15,
    NotCarried = 16,
    Default = 17,
}

// A refusal: the fault, and the bit at which its field begins. Of TAIL it is the first bit that should not be there. The count begins with the first
// bit of the lent bytes. `refused_at` makes it, and every decoder hands it up unchanged.
#[derive(Clone, Copy)]
pub struct Refusal {
    pub fault: Fault,
    pub at: usize,
}

impl Refusal {
    // The places that the answer of a call has room for: 56 bits.
    const PLACES: usize = 72057594037927936;
}

// What reading finds: a value and the place after it, or the refusal. The value of contents is their count of items; they end at the place
// after them.
pub type Reading<T> = Result<(T, usize), Refusal>;

// The number that document 01 gives a fault.
#[tactic(auto, unfolding(crate::specs::Refusals::number_of))]
pub fn number(f: Fault) -> u64
    ensures { result ≡ number_of f }
{
    f as u64
}

// What a call answers that refuses for a fault in bits: the number, and the place above it.
#[tactic(auto, using(crate::proofs::Numbering::number_low), unfolding(crate::specs::Refusals::packed))]
pub fn packed(r: Refusal) -> u64
    ensures { result ≡ packed r }
{
    let place = r.at % Refusal::PLACES;
    number(r.fault) + 256 * place as u64
}
