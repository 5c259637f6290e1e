// What the host calls from C: each function of the card under its C name, with the clauses that it has there. A crate is a library or a
// static library, not both: the card is the library, and this crate calls it.
#![tactic(auto)]

mod arriving; // arriving.rt: the broker's envelopes as they arrive
mod compared; // compared.rt: two recordings compared
mod data; // data.rt: the parts of message data
mod forwards; // forwards.rt: the forward service
mod fresh_record; // fresh_record.rt: a fresh record
mod mail; // mail.rt: the broker's envelopes
mod message; // message.rt: the CPDLC message
mod message_numbers; // message_numbers.rt: the book of message identification numbers
mod recorded; // recorded.rt: an APDU by itself
mod service; // service.rt: the primitives of the dialogue service
mod user; // user.rt: the primitives of the user, and what the host reports
