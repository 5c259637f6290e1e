// SHAPE of what the host gives for type 2: a message that can be read from its first bit to its last, or none; no identifier, and no check.
ghost use Rattle.std.specs.Prelude.{◌≡◌, true};
ghost use Rattle.apdu.specs.Sizes.{bit, message_most};
ghost use Rattle.apdu.specs.Pdus.{items_in, lent, part_in};
ghost use Rattle.apdu.specs.Writing.{items_fit, part_fits};
ghost use Rattle.plain.specs.Plain.{elements_fit, ends_at, forward_given_fits, given_fits, message_fits};

use crate::reading::direction_of;
use apdu::{Data, Forward, Heading};
use fields::Reading;
use inplace::{elements_span, message_span};
use kinds::Direction;
use pdus::Span;

// Whether reading ended at a place.
fn ends_at(end: usize, f: Reading<u64>) -> bool
    ensures { result ≡ ends_at end f }
{
    match f {
        Ok((_, next)) => next == end,
        Err(_) => false,
    }
}

#[tactic(auto, using(crate::proofs::Shapes::part_low, crate::proofs::Shapes::none_taken, crate::proofs::Shapes::message_taken))]
fn message_fits(direction: Direction, message: Option<Span>, msgs: &[u8]) -> bool
    requires { part_fits (lent msgs.now) bit 0 message_most message ≡ true }
    ensures { result ≡ message_fits direction (part_in (lent msgs.now) bit message) }
{
    match message {
        None => true,
        Some(x) => {
            let end = x.at + x.count;
            ends_at(end, message_span(direction, msgs, end, x.at))
        }
    }
}

#[tactic(auto, using(crate::proofs::Shapes::not_placed, crate::proofs::Shapes::message_placed, crate::proofs::Shapes::has_identifier, crate::proofs::Shapes::has_check, crate::proofs::Shapes::by_message))]
pub fn given_fits(direction: Direction, d: Data, ids: &[u8], msgs: &[u8], checks: &[u8]) -> bool
    ensures { result ≡ given_fits direction (lent ids.now) (lent msgs.now) (lent checks.now) d }
{
    if !apdu::data_fits(d, ids, msgs, checks) {
        return false;
    }
    if d.identifier.is_some() {
        return false;
    }
    let check = d.check;
    if 0 < check.count {
        return false;
    }
    message_fits(direction, d.message, msgs)
}

#[tactic(auto, using(crate::proofs::Shapes::span_low, crate::proofs::Shapes::elements_taken))]
fn elements_fit(h: Heading, x: Span, msgs: &[u8]) -> bool
    requires { items_fit (lent msgs.now) bit 0 message_most x ≡ true }
    ensures { result ≡ elements_fit h (items_in (lent msgs.now) bit x) }
{
    let end = x.at + x.count;
    ends_at(
        end,
        elements_span(direction_of(h.direction), msgs, end, x.at),
    )
}

#[tactic(auto, using(crate::proofs::Shapes::forward_not_placed, crate::proofs::Shapes::forward_items, crate::proofs::Shapes::by_elements))]
pub fn forward_given_fits(f: Forward, msgs: &[u8]) -> bool
    ensures { result ≡ forward_given_fits (lent msgs.now) f }
{
    if apdu::forward_fits(f, msgs) {
        return elements_fit(f.heading, f.message, msgs);
    }
    false
}
