// The APDUs of a record's edition: each function asks which edition it is, and crate apdu (type 22) or crate plain (type 2) does it.
#![tactic(auto)]

mod reading;
mod writing;

pub use reading::{read_apdu, read_forward};
pub use writing::{
    forward_given_fits, given_fits, put_abort_user, put_forward_pdu, put_send, put_start,
};
