// What the host gives to a call. Message data come as three ranges, each from its first bit on: the identifier's octets (none: no
// identifier), the bits of the message, of which `message` says how many (NONE: no message), and those of the check, of which `check` says
// how many.
ghost use Rattle.std.specs.Prelude.{◌≡◌};
ghost use Rattle.card.specs.Face.{data_call, given_data, part_of, plain_call};
ghost use Rattle.step.specs.Call.{called};

use apdu::Data;
use machine::event::{Event, UserPrimitive};
use pdus::Span;
use step::{no_data, user_call};

// The count that says "none": no message, no reason.
pub(crate) const NONE: u64 = u64::MAX;

// What stands for the dialogue number of an event that brings none.
const NO_NUMBER: u64 = 0;

// n items from the first bit on, or none.
#[tactic(auto, unfolding(crate::specs::Face::part_of))]
fn part_of(absent: bool, n: usize) -> Option<Span>
    ensures { result ≡ part_of absent n }
{
    if absent {
        None
    } else {
        Some(Span { at: 0, count: n })
    }
}

#[tactic(auto, unfolding(crate::specs::Face::given_data))]
pub(crate) fn given_data(octets: usize, message: u64, check: u64) -> Data
    ensures { result ≡ given_data octets message check }
{
    Data {
        identifier: part_of(octets == 0, octets),
        message: part_of(message == NONE, message as usize),
        check: Span {
            at: 0,
            count: check as usize,
        },
    }
}

// A user primitive with message data that brings no dialogue number.
pub(crate) fn data_call(
    rec: &mut [u8],
    u: UserPrimitive,
    ids: &[u8],
    msgs: &[u8],
    message: u64,
    checks: &[u8],
    check: u64,
    first: &mut [u8],
    second: &mut [u8],
) -> u64
    ensures { called result rec.new first.new second.new ≡
        data_call rec.old first.old second.old u ids.now msgs.now message
        checks.now check }
{
    let d = given_data(ids.len(), message, check);
    user_call(rec, first, second, u, NO_NUMBER, ids, msgs, checks, d)
}

// A user primitive without message data.
pub(crate) fn plain_call(
    rec: &mut [u8],
    u: UserPrimitive,
    first: &mut [u8],
    second: &mut [u8],
) -> u64
    ensures { called result rec.new first.new second.new ≡
        plain_call rec.old first.old second.old (Event.User u) }
{
    let empty = [0u8; 0];
    user_call(
        rec,
        first,
        second,
        u,
        NO_NUMBER,
        &empty,
        &empty,
        &empty,
        no_data(),
    )
}
