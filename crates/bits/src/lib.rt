// Bits of lent bytes: a run of bits read as a number, written, or copied, at any bit position.
// Every function takes every argument. Only the first `end` bits of a slice count (all that there are, where `end` is more):
// what does not lie within them is refused, and then no byte changes. A reader answers with the number and the place after it, a writer with the
// place after what it wrote; None is a refusal.
#![tactic(auto)]

mod common;
mod copier;
mod eight_bytes;
mod extent;
mod led;
mod reader;
mod whole_bytes;
mod writer;

pub use copier::copy_bits;
pub use extent::within;
pub use led::put_led;
pub use reader::read_bits;
pub use whole_bytes::{put_eight_bytes, read_eight_bytes};
pub use writer::{pad, put_bits};
