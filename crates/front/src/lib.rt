// The front of an APDU: the alternative of AircraftPDUs or GroundPDUs, and the padding at its end. What stands between is a body, of which this
// crate knows no more than `Body` says. No function is in here.
#![tactic(auto)]

use machine::event::UserData;
use pdus::Content;

// What was read: which PDU, and where its content stands.
#[derive(Drop)]
pub struct Found {
    pub pdu: UserData,
    pub content: Content,
}
