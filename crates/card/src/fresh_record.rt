// A fresh record in a lent range.
ghost use Rattle.std.specs.Prelude.{◌≡◌, cond};
ghost use Rattle.words.specs.Limits.{shape};
ghost use Rattle.card.specs.Face.{fresh_call, made};

use control::Side;
use editions::Edition;
use machine::record::{Configuration, Record};
use stored::store;
use words::Limit;

fn told_made(stored: bool) -> u64
    ensures { result ≡ cond stored 0 shape }
{
    if stored { 0 } else { Limit::SHAPE }
}

const FIRST_NUMBER: u64 = 0;

// A fresh record for a side (1 air, 2 ground), with the security value that local policy accepts, whether forwarding is supported (0, 1),
// the own version (1 to 255), and the application type (2, 22).
#[tactic(auto, unfolding(crate::specs::Face::fresh_call, crate::specs::Face::fresh_for))]
#[unsafe(no_mangle)]
pub extern "C" fn peat_fresh(
    rec: &mut [u8],
    side: u64,
    policy: u64,
    forwards: u64,
    version: u64,
    application: u64,
) -> u64
    ensures { made result rec.new ≡ fresh_call rec.old side policy forwards version application }
{
    if 1 < forwards || !Edition::is_type(application) {
        return Limit::SHAPE;
    }
    let r = Record::fresh(Configuration {
        policy,
        forwards: forwards == 1,
        version,
        edition: Edition::of_type(application),
    });
    match side {
        1 => told_made(store(rec, Side::Air, r, FIRST_NUMBER)),
        2 => told_made(store(rec, Side::Ground, r, FIRST_NUMBER)),
        _ => Limit::SHAPE,
    }
}
