// ATCForwardMessage read: what stands before the message's bits, field by field, then where they stand.
ghost use Rattle.std.specs.Prelude.{◌≡◌};
ghost use Rattle.apdu.specs.Pdus.{lent};
ghost use Rattle.apdu.specs.Reading.{forward_at, heading_at, triple_at};

use crate::decoder::ALL;
use crate::parts::span_to;
use crate::{Data, Forward, Heading, Triple};
use fields::Reading;

// Three whole numbers in a row.
#[tactic(auto, unfolding(crate::specs::Reading::triple_at))]
fn triple_at(s: &[u8], at: usize, from: Triple, to: Triple) -> Reading<Triple>
    ensures { result ≡ triple_at (lent s.now) at from to }
{
    let (x, p) = fields::whole(s, ALL, at, from.first, to.first)?;
    let (y, q) = fields::whole(s, ALL, p, from.second, to.second)?;
    let (z, next) = fields::whole(s, ALL, q, from.third, to.third)?;
    Ok((
        Triple {
            first: x,
            second: y,
            third: z,
        },
        next,
    ))
}

// What stands before the message.
#[tactic(auto, unfolding(crate::specs::Reading::heading_at))]
pub fn heading_at(s: &[u8], at: usize) -> Reading<Heading>
    ensures { result ≡ heading_at (lent s.now) at }
{
    let (date, p) = triple_at(s, at, Heading::DATE_FROM, Heading::DATE_TO)?;
    let (time, q) = triple_at(s, p, Heading::TIME_FROM, Heading::TIME_TO)?;
    let (characters, a) = fields::whole(
        s,
        ALL,
        q,
        Heading::CHARACTERS_LEAST,
        Heading::CHARACTERS_MOST,
    )?;
    let (flight, b) = fields::bit_field(s, ALL, a, Heading::CHARACTER * characters as usize)?;
    let (address, c) = fields::bit_field(s, ALL, b, Heading::ADDRESS_BITS)?;
    let (direction, next) = fields::whole(s, ALL, c, 0, Heading::DIRECTION_LAST)?;
    let heading = Heading {
        date,
        time,
        characters,
        flight,
        address,
        direction,
    };
    Ok((heading, next))
}

#[tactic(auto, unfolding(crate::specs::Reading::forward_within))]
pub(crate) fn forward_at(s: &[u8], at: usize) -> Reading<Forward>
    ensures { result ≡ forward_at (lent s.now) at }
{
    let (heading, p) = heading_at(s, at)?;
    let (n, next) = fields::string(s, ALL, p, Data::BIT, 0, Data::MESSAGE_MOST as u64)?;
    let forward = Forward {
        heading,
        message: span_to(Data::BIT, n, next),
    };
    Ok((forward, next))
}
