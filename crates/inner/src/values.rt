// The values of an inner message. Whatever a value does not use is zero.
ghost use Rattle.std.specs.Prelude.{◌≡◌};

use elements::values::{Element, Time};
use fields::Refusal;
use words::Limit;

#[derive(Clone, Copy)]
pub struct DateTime {
    pub year: u16,
    pub month: u8,
    pub day: u8,
    pub time: Time,
    pub seconds: u8,
}

// The reference is zero where there is none. `acknowledged` says that a logical acknowledgement is required.
#[derive(Clone, Copy)]
pub struct Header {
    pub identification: u8,
    pub referenced: bool,
    pub reference: u8,
    pub dated: DateTime,
    pub acknowledged: bool,
}

// One to five elements, filled in order.
#[derive(Drop)]
pub struct Message {
    pub header: Header,
    pub count: usize,
    pub places: [Element; 5],
}

impl DateTime {
    // Year (1996..2095), Month (1..12), Day (1..31), TimeSeconds (0..59): Doc 9705 2.3.4.3.
    pub const FIRST_YEAR: u64 = 1996;

    pub const LAST_YEAR: u64 = 2095;

    pub const LAST_MONTH: u64 = 12;

    pub const LAST_DAY: u64 = 31;

    pub const LAST_SECOND: u64 = 59;

    pub const EMPTY: DateTime = DateTime {
        year: 0,
        month: 0,
        day: 0,
        time: Time::EMPTY,
        seconds: 0,
    };
}

impl Header {
    // MsgIdentificationNumber, MsgReferenceNumber (0..63).
    pub const LAST_NUMBER: u64 = 63;
    // Bits of a header without a reference and an acknowledgement, and those of a reference.
    pub const LEAST_BITS: u64 = 41;

    pub const REFERENCE_BITS: u64 = 6;

    pub const EMPTY: Header = Header {
        identification: 0,
        referenced: false,
        reference: 0,
        dated: DateTime::EMPTY,
        acknowledged: false,
    };
}

impl Message {
    pub const PLACES: usize = 5;
    // Bits that a message has at most (document 01, "Sizes").
    pub const BITS: usize = Limit::MESSAGE_BITS;
    // Bytes that a lent output buffer has at least.
    pub const ROOM: usize = Limit::BUFFER_BYTES;
    // Bits between the header and the elements: that there is no constrained data, and the count of elements.
    pub const BETWEEN: usize = 4;

    pub const EMPTY: Message = Message {
        header: Header::EMPTY,
        count: 0,
        places: [Element::EMPTY; Message::PLACES],
    };
}

// Why a message and its text were not read, and every byte of the text is as it was: a text under the least size; a count of bits that is more
// than a message has at most or than the lent bytes hold; the refusal of a field.
#[derive(Clone, Copy)]
pub enum Unopened {
    Room,
    Shape,
    Refused(Refusal),
}

impl From<Refusal> for Unopened {
    ghost use Rattle.inner.specs.declared.values.Unopened.TheVariants.{Refused};

    ghost from_gives = { λ r u. u ≡ Refused r };

    fn from(r: Refusal) -> Unopened
        ensures { result ≡ Refused r }
    {
        Unopened::Refused(r)
    }
}
