// The APDUs of application type 22 (Doc 9880) as the step takes them: what arrived is a `Found`, what goes out is a PDU and its content. The codec
// is crate apdu's; here its answers are brought to the form that the front has.
#![tactic(auto)]

mod places;
mod reading;
mod writing;

pub use reading::read_found;
pub use writing::{content_fits, put_forward, put_reply, put_sent, put_shown};
