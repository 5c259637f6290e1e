// SHAPE of a forward message: whether what stands before its bits keeps the ranges of its types, and the lent bytes hold the bits.
ghost use Rattle.std.specs.Prelude.{◌≡◌, ◌<◌};
ghost use Rattle.fields.specs.Encodings.{bits_fit, whole_fits};
ghost use Rattle.apdu.specs.Headings.{aircraft_fits, heading_fits, triple_fits};
ghost use Rattle.apdu.specs.Pdus.{lent};
ghost use Rattle.apdu.specs.Writing.{forward_fits};

use crate::shape::items_fit;
use crate::{Data, Forward, Heading, Triple};

fn whole_fits(lo: u64, hi: u64, v: u64) -> bool
    ensures { result ≡ whole_fits lo hi v }
{
    lo <= v && v <= hi
}

#[tactic(auto, unfolding(crate::specs::Headings::triple_fits))]
fn triple_fits(from: Triple, to: Triple, v: Triple) -> bool
    ensures { result ≡ triple_fits from to v }
{
    whole_fits(from.first, to.first, v.first)
        && whole_fits(from.second, to.second, v.second)
        && whole_fits(from.third, to.third, v.third)
}

// n bits hold v.
#[tactic(auto, using(crate::proofs::ForwardWriters::bits_held))]
fn bits_fit(n: usize, v: u64) -> bool
    requires { n < 64 }
    ensures { result ≡ bits_fit n v }
{
    fields::width(v) <= n
}

// The flight identification, whose characters take seven bits each, then the address and the direction.
#[tactic(auto, unfolding(crate::specs::Headings::aircraft_fits))]
fn aircraft_fits(h: Heading) -> bool
    ensures { result ≡ aircraft_fits h }
{
    whole_fits(
        Heading::CHARACTERS_LEAST,
        Heading::CHARACTERS_MOST,
        h.characters,
    ) && bits_fit(Heading::CHARACTER * h.characters as usize, h.flight)
        && bits_fit(Heading::ADDRESS_BITS, h.address)
        && whole_fits(0, Heading::DIRECTION_LAST, h.direction)
}

#[tactic(auto, unfolding(crate::specs::Headings::heading_fits))]
pub(crate) fn heading_fits(h: Heading) -> bool
    ensures { result ≡ heading_fits h }
{
    triple_fits(Heading::DATE_FROM, Heading::DATE_TO, h.date)
        && triple_fits(Heading::TIME_FROM, Heading::TIME_TO, h.time)
        && aircraft_fits(h)
}

// A forward message, whose bits stand in msgs.
#[tactic(auto, unfolding(crate::specs::Writing::forward_fits))]
pub fn forward_fits(f: Forward, msgs: &[u8]) -> bool
    ensures { result ≡ forward_fits (lent msgs.now) f }
{
    heading_fits(f.heading) && items_fit(msgs, Data::BIT, 0, Data::MESSAGE_MOST, f.message)
}
