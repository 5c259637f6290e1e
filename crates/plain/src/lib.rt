// Message data of application type 2: a message in place, without a length before it; in a start, a message or none; in a forward, elements in place.
#![tactic(auto)]

mod giving;
mod reading;

pub use giving::{forward_given_fits, given_fits};
pub use reading::{forward_at, read_forward, send_at, sent_by, start_at};
