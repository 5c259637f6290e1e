// What is known of an APDU between its bytes and the machine: which type it is of, and where its content stands. No function is in here.

#![tactic(auto)]

// Which of the two types an APDU is of: the air end writes AircraftPDUs, the ground end GroundPDUs.
#[derive(Clone, Copy)]
pub enum PduType {
    AircraftPdus,
    GroundPdus,
}

// Contents in lent bytes: the place where they begin, and their count of items.
#[derive(Clone, Copy)]
pub struct Span {
    pub at: usize,
    pub count: usize,
}

// Where the content of an APDU stands: the algorithm identifier in octets, the CPDLC message and the integrity check in bits. An identifier of no octets
// is none; a message of NONE bits is none. A forward message is the run of its bits, as the message.
#[derive(Drop)]
pub struct Content {
    pub identifier: Span,
    pub message: Span,
    pub check: Span,
}

impl Content {
    // No message has as many bits. The C face says "no message" with the same number.
    pub const NONE: usize = 18446744073709551615;
}
