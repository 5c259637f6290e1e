// The step on bytes: a record as lent bytes, the host's message data or the user data of a primitive, and two lent output buffers.
// Read the record, read the APDU, take the machine's step, write the APDU and the message data, keep the record.
#![tactic(auto)]

mod answers;
mod arrived;
mod call;
mod carried;

pub use call::{HostEvent, forward_call, host_call, service_call, user_call};
pub use carried::no_data;
