// The calls on bytes that the card exports.
ghost use Rattle.std.specs.Prelude.{◌≡◌};
ghost use Rattle.layout.specs.Calls.{read_call, sent, told, way_of, write_call};

use crate::reading::read_laid;
use crate::stored::{BYTES, message_stands};
use crate::writing::write_laid;
use inner::values::{Message, Unopened};
use kinds::Direction;
use words::{Limit, Unwritten};

// A count of characters is answered in the bits above a refusal's number, a count of bits in those above it.
const COUNTED: u64 = 256;

const COUNTED_BITS: u64 = 16777216;

// The direction that a number names: 1 is the downlink, 2 the uplink.
#[tactic(auto, unfolding(crate::specs::Calls::way_of))]
fn way_of(n: u64) -> Option<Direction>
    ensures { result ≡ way_of n }
{
    match n {
        1 => Some(Direction::Downlink),
        2 => Some(Direction::Uplink),
        _ => None,
    }
}

// The message that the first `count` bits are, into the range `message`, and its characters into the first bytes of `text`.
pub fn read_call(
    direction: u64,
    bits: &[u8],
    count: u64,
    message: &mut [u8],
    text: &mut [u8],
) -> u64
    ensures { told result message.new text.new ≡
        read_call direction bits.now count message.old text.old }
{
    if text.len() < Message::ROOM {
        return Limit::ROOM;
    }
    if message.len() != BYTES {
        return Limit::SHAPE;
    }
    let Some(way) = way_of(direction) else {
        return Limit::SHAPE;
    };
    match read_laid(way, bits, count as usize, message, text) {
        Ok(n) => COUNTED * n as u64,
        Err(Unopened::Room) => Limit::ROOM,
        Err(Unopened::Shape) => Limit::SHAPE,
        Err(Unopened::Refused(r)) => fields::packed(r),
    }
}

// The message in the range `message`, whose characters are `text`, from the buffer's first bit on.
pub fn write_call(direction: u64, message: &[u8], text: &[u8], out: &mut [u8]) -> u64
    ensures { sent result out.new ≡ write_call direction message.now text.now out.old }
{
    if out.len() < Message::ROOM {
        return Limit::ROOM;
    }
    if !message_stands(message) {
        return Limit::SHAPE;
    }
    let Some(way) = way_of(direction) else {
        return Limit::SHAPE;
    };
    match write_laid(way, message, text, out) {
        Ok(n) => COUNTED_BITS * n as u64,
        Err(Unwritten::Room) => Limit::ROOM,
        Err(Unwritten::Shape) => Limit::SHAPE,
    }
}
