// A message as the host keeps it: a lent range of one size, of which every byte has its meaning.
ghost use Rattle.std.specs.Prelude.{◌≡◌, ◌≤◌, length, drop};
ghost use Rattle.layout.specs.Layout.{front_size, message_stands, places_stand, size};

use crate::front::front_stands;
use crate::place::place_stands;
use inner::values::Message;

// The bytes of a message.
pub const BYTES: usize = 132;
// Its front, and each of its places.
pub(crate) const FRONT: usize = 12;

pub(crate) const PLACE: usize = 24;

fn places_stand(b: &[u8]) -> bool
    requires { size ≤ length b.now }
    ensures { result ≡ places_stand 5 (drop front_size b.now) }
{
    for i in 0..Message::PLACES {
        let at = FRONT + PLACE * i;
        if !place_stands(&b[at..at + PLACE]) {
            return false;
        }
    }
    true
}

// Whether the bytes say a message.
#[tactic(auto, unfolding(crate::specs::Layout::message_stands))]
pub(crate) fn message_stands(b: &[u8]) -> bool
    ensures { result ≡ message_stands b.now }
{
    b.len() == BYTES && front_stands(b) && places_stand(b)
}
