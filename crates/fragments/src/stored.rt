// The record: a lent range of which every byte has its meaning (specs/Record.antt).
ghost use Rattle.std.specs.Prelude.{◌≡◌, ◌≤◌, length, get_or};
ghost use Rattle.std.proofs.lemmas.List.Edits.{sets};
ghost use Rattle.envelope.specs.Envelopes.{most_bits};
ghost use Rattle.fragments.specs.Mail.{head};
ghost use Rattle.fragments.specs.Record.{after, count_in, empty_of, fresh_at, head_at, load_at, loaded_by, of_two, place_in, record_bytes};

use crate::putting::{put_bytes, put_zeros};
use crate::{Taken, Untaken};
use envelope::EnvelopeRefusal;
use words::Limit;

// What a range says that holds no refusal: the bytes that are held and where they begin, of an envelope that is not finished or of a finished
// one.
#[derive(Drop)]
pub enum Loaded {
    Part(usize, u64),
    Whole(usize, u64),
}

impl Loaded {
    // The bytes of a record before those that it holds.
    pub const HEAD: usize = 11;
    // The bytes of the largest envelope: a kind, a job of ten groups, a bit count of two, and the body.
    pub const LARGEST: usize = 1 + 10 + 2 + (Limit::MESSAGE_BITS + 7) / 8;
    // The bytes of a record.
    pub const SIZE: usize = Loaded::HEAD + Loaded::LARGEST;
    // The largest place that is kept: of what begins there, or behind it.
    pub(crate) const LAST_PLACE: u64 = 18446744073709551615;
    // The first byte of a record that holds an envelope which is not finished, or a finished one. Of any other it is the number of the
    // refusal.
    pub(crate) const PART: u8 = 0;

    pub(crate) const WHOLE: u8 = 1;
}

fn of_two(high: u8, low: u8) -> usize
    ensures { result ≡ of_two high low }
{
    high as usize * 256 + low as usize
}

#[tactic(auto, unfolding(crate::specs::Record::loaded_by))]
fn load_by(state: u8, n: usize, place: u64) -> Result<Loaded, Untaken>
    ensures { result ≡ loaded_by state n place }
{
    match state {
        Loaded::PART => Ok(Loaded::Part(n, place)),
        Loaded::WHOLE => Ok(Loaded::Whole(n, place)),
        20 => Err(Untaken::Refused(EnvelopeRefusal::Cut)),
        21 => Err(Untaken::Refused(EnvelopeRefusal::Groups)),
        22 => Err(Untaken::Refused(EnvelopeRefusal::Kind)),
        23 => Err(Untaken::Refused(EnvelopeRefusal::Size)),
        _ => Err(Untaken::Shape),
    }
}

// A byte of a range; 0 where there is none.
fn byte_at(rec: &[u8], i: usize) -> u8
    ensures { result ≡ get_or rec.now i 0 }
{
    if rec.len() <= i { 0 } else { rec[i] }
}

pub(crate) fn count_in(rec: &[u8]) -> usize
    ensures { result ≡ count_in rec.now }
{
    of_two(byte_at(rec, 1), byte_at(rec, 2))
}

#[tactic(auto, unfolding(crate::specs::Record::of_eight))]
pub(crate) fn place_in(rec: &[u8]) -> u64
    ensures { result ≡ place_in rec.now }
{
    u64::from_be_bytes([
        byte_at(rec, 3),
        byte_at(rec, 4),
        byte_at(rec, 5),
        byte_at(rec, 6),
        byte_at(rec, 7),
        byte_at(rec, 8),
        byte_at(rec, 9),
        byte_at(rec, 10),
    ])
}

// What the bytes say.
pub(crate) fn load(rec: &[u8]) -> Result<Loaded, Untaken>
    ensures { result ≡ load_at most_bits rec.now }
{
    if rec.len() != Loaded::SIZE {
        return Err(Untaken::Shape);
    }
    let n = count_in(rec);
    if Loaded::LARGEST < n {
        return Err(Untaken::Shape);
    }
    load_by(byte_at(rec, 0), n, place_in(rec))
}

// The head of a record.
pub(crate) fn put_head(rec: &mut [u8], state: u8, n: usize, place: u64)
    requires { head ≤ length rec.old }
    ensures { rec.new ≡ sets rec.old 0 (head_at state n place) }
{
    let front = [state, (n / 256 % 256) as u8, (n % 256) as u8];
    put_bytes(rec, 0, &front);
    let back = place.to_be_bytes();
    put_bytes(rec, 3, &back);
}

// A record that holds nothing: a fresh one, or one of a refusal.
pub(crate) fn put_empty(rec: &mut [u8], state: u8, place: u64)
    requires { length rec.old ≡ record_bytes most_bits }
    ensures { rec.new ≡ empty_of most_bits state place }
{
    let n = rec.len() - Loaded::HEAD;
    put_zeros(rec, Loaded::HEAD, n);
    put_head(rec, state, 0, place);
}

// A fresh record.
pub fn make_fresh(rec: &mut [u8]) -> Result<Taken, Untaken>
    ensures { after result rec.new ≡ fresh_at most_bits rec.old }
{
    if rec.len() != Loaded::SIZE {
        return Err(Untaken::Shape);
    }
    put_empty(rec, Loaded::PART, 0);
    Ok(Taken::Part(0))
}
