// SHAPE: whether a value to write keeps document 01's sizes, its type and its codes, and the lent bytes hold its parts.
ghost use Rattle.std.specs.Prelude.{◌≡◌, ◌*◌, ◌^◌, ◌<◌};
ghost use Rattle.apdu.specs.Pdus.{forwards, lent};
ghost use Rattle.apdu.specs.Encoding.{mode_fits};
ghost use Rattle.apdu.specs.Writing.{data_fits, items_fit, part_fits};

use crate::decoder::ALL;
use crate::{Apdu, Data};
use pdus::{PduType, Span};

// From least to most items, and the bytes hold them.
#[tactic(auto, using(bits::proofs::Bytes::length_to), unfolding(crate::specs::Writing::items_fit))]
pub(crate) fn items_fit(src: &[u8], unit: usize, least: usize, most: usize, x: Span) -> bool
    requires { (unit * most < 2 ^ 32) × (most < 16384) }
    ensures { result ≡ items_fit (lent src.now) unit least most x }
{
    let n = x.count;
    least <= n && n <= most && bits::within(src.len(), ALL, x.at, unit * n)
}

#[tactic(auto, unfolding(crate::specs::Writing::part_fits))]
fn part_fits(src: &[u8], unit: usize, least: usize, most: usize, part: Option<Span>) -> bool
    requires { (unit * most < 2 ^ 32) × (most < 16384) }
    ensures { result ≡ part_fits (lent src.now) unit least most part }
{
    match part {
        None => true,
        Some(x) => items_fit(src, unit, least, most, x),
    }
}

// Message data: the identifier stands in ids, the message in msgs, the check in checks.
#[tactic(auto, unfolding(crate::specs::Writing::data_fits))]
pub fn data_fits(d: Data, ids: &[u8], msgs: &[u8], checks: &[u8]) -> bool
    ensures { result ≡ data_fits (lent ids.now) (lent msgs.now) (lent checks.now) d }
{
    part_fits(
        ids,
        Data::OCTET,
        Data::IDENTIFIER_LEAST,
        Data::IDENTIFIER_MOST,
        d.identifier,
    ) && part_fits(msgs, Data::BIT, 0, Data::MESSAGE_MOST, d.message)
        && items_fit(checks, Data::BIT, 0, Data::CHECK_MOST, d.check)
}

#[tactic(auto, unfolding(crate::specs::Encoding::mode_fits))]
pub(crate) fn mode_fits(pdus: PduType, m: u64) -> bool
    ensures { result ≡ mode_fits pdus m }
{
    match pdus {
        PduType::AircraftPdus => m <= Apdu::MODE_LAST,
        PduType::GroundPdus => m == 0,
    }
}

// GroundPDUs alone has the two forward alternatives.
pub(crate) fn has_forwards(pdus: PduType) -> bool
    ensures { result ≡ forwards pdus }
{
    matches!(pdus, PduType::GroundPdus)
}
