// An inner message in a lent range of one fixed size, as a host keeps it that has numbers and byte ranges only.
#![tactic(auto)]

mod bytes;
pub mod calls;
mod characters;
mod front;
mod place;
mod reading;
pub mod stored;
mod writing;
