// The CPDLC message inside an APDU (Doc 9705 2.3.4.3): its header and its elements in five places.
#![tactic(auto)]

mod five;
pub mod header;
pub mod measuring;
pub mod message;
pub mod values;
pub mod writing;
