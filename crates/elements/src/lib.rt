// The message elements of a CPDLC message (Doc 9705 2.3.4.3): an element with its argument read, measured and written.
#![tactic(auto)]

pub mod arguments;
pub mod measuring;
pub mod numbers;
pub mod reading;
mod short;
pub mod values;
pub mod writing;
