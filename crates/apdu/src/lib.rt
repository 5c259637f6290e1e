// AircraftPDUs and GroundPDUs (Doc 9705, 2.3.4.2), read from lent bytes and written to a lent buffer in unaligned PER. No state is in here.
// Reading tells the kind, its numbers, and where the parts of the message data stand in the lent bytes; nothing is copied.
// Writing takes the parts from where they stand, and writes once everything that can be refused is decided.
#![tactic(auto)]

ghost use Rattle.std.specs.Prelude.{◌≡◌};
ghost use Rattle.apdu.specs.Pdus.{lent};
ghost use Rattle.apdu.specs.Reading.{apdu_at};

mod data_writer;
mod decoder;
mod encoder;
mod heading_shape;
mod heading_writer;
mod headings;
mod in_place;
mod leading;
mod parts;
mod shape;

pub use data_writer::{put_data, put_passed, put_run};
use decoder::apdu_at;
pub use decoder::{ALL, ended, read_data, read_forward, rest_at, tail};
pub use encoder::{
    put_abort_provider, put_abort_user, put_apdu, put_forward_by, put_forward_pdu,
    put_forward_response, put_send, put_start,
};
use fields::Refusal;
pub use heading_shape::forward_fits;
pub use heading_writer::put_forward;
pub use headings::heading_at;
pub use in_place::{put_abort_within, put_send_in_place, put_start_in_place};
pub use leading::leading_at;
use pdus::{PduType, Span};
pub use shape::data_fits;
use words::Limit;

// The alternatives of both types. Start is startdown (AircraftPDUs) or startup (GroundPDUs).
#[derive(Clone, Copy)]
pub enum Kind {
    AbortUser,
    AbortProvider,
    Start,
    Send,
    Forward,
    ForwardResponse,
}

// Message data (ProtectedUplinkMessage, ProtectedDownlinkMessage): the algorithm identifier in octets, the CPDLC message and the integrity
// check in bits.
#[derive(Clone, Copy)]
pub struct Data {
    pub identifier: Option<Span>,
    pub message: Option<Span>,
    pub check: Span,
}

impl Data {
    pub const IDENTIFIER_LEAST: usize = 1;

    pub const IDENTIFIER_MOST: usize = 16;

    pub const MESSAGE_MOST: usize = Limit::MESSAGE_BITS;

    pub const CHECK_MOST: usize = 64;
    // Bits of an item: the identifier counts octets, the message and the check count bits.
    pub const OCTET: usize = 8;

    pub const BIT: usize = 1;
}

// Three whole numbers: a date is year, month, day; a time is hours, minutes, seconds.
#[derive(Clone, Copy)]
pub struct Triple {
    pub first: u64,
    pub second: u64,
    pub third: u64,
}

// What stands before the message's bits in a forward message (ATCForwardMessage).
#[derive(Clone, Copy)]
pub struct Heading {
    pub date: Triple,
    pub time: Triple,
    // The aircraft's flight identification: the count of its characters, and they as one number, seven bits each, the first on top.
    pub characters: u64,
    pub flight: u64,
    // The aircraft's address, 24 bits.
    pub address: u64,
    // What the message's bits are: 0 ATCUplinkMessageData, 1 ATCDownlinkMessageData.
    pub direction: u64,
}

impl Heading {
    pub const DATE_FROM: Triple = Triple {
        first: 1996,
        second: 1,
        third: 1,
    };

    pub const DATE_TO: Triple = Triple {
        first: 2095,
        second: 12,
        third: 31,
    };

    pub const TIME_FROM: Triple = Triple {
        first: 0,
        second: 0,
        third: 0,
    };

    pub const TIME_TO: Triple = Triple {
        first: 23,
        second: 59,
        third: 59,
    };

    pub const CHARACTERS_LEAST: u64 = 2;

    pub const CHARACTERS_MOST: u64 = 8;
    // Bits of a character, and of an address; how many addresses there are.
    pub const CHARACTER: usize = 7;

    pub const ADDRESS_BITS: usize = 24;

    pub const ADDRESSES: u64 = 16777216;

    pub const DIRECTION_LAST: u64 = 1;
}

// A forward message: its heading, and where the message's bits stand.
#[derive(Clone, Copy)]
pub struct Forward {
    pub heading: Heading,
    pub message: Span,
}

// An APDU: an abort's reason, a start's mode (0 cpdlc, 1 dsc), message data, a forward message, and what a forward met (0 success, 1
// service not supported, 2 version not equal).
#[derive(Drop)]
pub enum Apdu {
    AbortUser(u64),
    AbortProvider(u64),
    Start(u64, Data),
    Send(Data),
    Forward(Forward),
    ForwardResponse(u64),
}

impl Apdu {
    pub const USER_LAST: u64 = 12;

    pub const PROVIDER_LAST: u64 = 7;

    pub const MODE_LAST: u64 = 1;

    pub const RESPONSE_LAST: u64 = 2;
    // Bytes that a lent output buffer has at least.
    pub const BUFFER: usize = Limit::BUFFER_BYTES;
    // Bits that such a buffer takes with their padding.
    pub const PASSED_MOST: usize = 8 * Limit::BUFFER_BYTES - 7;
}

// The reader: it holds the lent APDU and a bit position.
#[derive(Drop)]
pub struct Reader<'a> {
    pub src: &'a [u8],
    pub at: usize,
}

impl<'a> Reader<'a> {
    // The APDU at the position.
    pub fn apdu(self, pdus: PduType) -> Result<Apdu, Refusal>
        ensures { result ≡ apdu_at pdus (lent self.entry.src.now) self.entry.at }
    {
        apdu_at(self.src, self.at, pdus)
    }
}

// A reader at the first bit.
pub fn new<'a>(src: &'a [u8]) -> Reader<'a>
    ensures { (result.src ≡ src.entry) × (result.at ≡ 0) }
{
    Reader { src, at: 0 }
}

// The APDU that lent bytes are: for whoever holds no reader.
pub fn read_apdu(s: &[u8], pdus: PduType) -> Result<Apdu, Refusal>
    ensures { result ≡ apdu_at pdus (lent s.now) 0 }
{
    new(s).apdu(pdus)
}
