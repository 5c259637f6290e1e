// What lent bytes are in an edition.
ghost use Rattle.std.specs.Prelude.{◌≡◌};
ghost use Rattle.apdu.specs.Pdus.{lent};
ghost use Rattle.editions.specs.declared.Edition.TheVariants.{Plain};
ghost use Rattle.codec.specs.Codec.{apdu_at, rest_at, whole_forward};

use apdu::{ALL, Apdu, Forward, Kind, ended};
use editions::Edition;
use fields::{Reading, Refusal};
use pdus::PduType;
use plain::{forward_at, send_at, sent_by, start_at};

// The last reason of a user abort in type 2.
pub(crate) const USER_LAST: u64 = 6;

// What follows the leading fields in type 2.
#[tactic(auto, unfolding(crate::specs::Codec::rest_at))]
fn rest_at(s: &[u8], pdus: PduType, kind: Kind, mode: u64, at: usize) -> Result<Apdu, Refusal>
    ensures { result ≡ rest_at Plain pdus (lent s.now) kind mode at }
{
    match kind {
        Kind::AbortUser => {
            let (r, next) = fields::extensible_index(s, ALL, at, USER_LAST)?;
            ended(s, next, Apdu::AbortUser(r))
        }
        Kind::AbortProvider => {
            let (r, next) = fields::extensible_index(s, ALL, at, Apdu::PROVIDER_LAST)?;
            ended(s, next, Apdu::AbortProvider(r))
        }
        Kind::Start => {
            let (d, next) = start_at(sent_by(pdus), s, at)?;
            ended(s, next, Apdu::Start(mode, d))
        }
        Kind::Send => {
            let (d, next) = send_at(sent_by(pdus), s, at)?;
            ended(s, next, Apdu::Send(d))
        }
        Kind::Forward => {
            let (f, next) = forward_at(s, at)?;
            ended(s, next, Apdu::Forward(f))
        }
        Kind::ForwardResponse => {
            let (r, next) = fields::extensible_index(s, ALL, at, Apdu::RESPONSE_LAST)?;
            ended(s, next, Apdu::ForwardResponse(r))
        }
    }
}

// The leading fields are the same in both editions.
#[tactic(auto, unfolding(crate::specs::Codec::apdu_at), using(crate::proofs::Same::rest_same))]
pub fn read_apdu(edition: Edition, s: &[u8], pdus: PduType) -> Result<Apdu, Refusal>
    ensures { result ≡ apdu_at edition pdus (lent s.now) }
{
    let ((kind, mode), next) = apdu::leading_at(s, 0, pdus)?;
    match edition {
        Edition::Plain => rest_at(s, pdus, kind, mode, next),
        Edition::Protected => apdu::rest_at(s, kind, mode, next),
    }
}

// A forward message by itself, as it is delivered to a user.
pub fn read_forward(edition: Edition, s: &[u8]) -> Reading<Forward>
    ensures { result ≡ whole_forward edition (lent s.now) }
{
    match edition {
        Edition::Plain => plain::read_forward(s),
        Edition::Protected => apdu::read_forward(s),
    }
}
