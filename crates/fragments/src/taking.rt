// A fragment is read together with what is held. At most one envelope is finished by a call; the host calls again with the rest of the
// fragment.
ghost use Rattle.std.specs.Prelude.{Err, ◌≡◌, [], ◌+◌, ◌≤◌, length};
ghost use Rattle.envelope.specs.Envelopes.{envelope_at, largest, most_bits};
ghost use Rattle.fragments.specs.Mail.{head, in_record, joined, later, refused, unfinished};
ghost use Rattle.fragments.specs.Missing.{missing};
ghost use Rattle.fragments.specs.Record.{after, held_in, kept, record_bytes, record_of, resumed, take_at};

use crate::missing::lacking;
use crate::putting::{put_bytes, put_zeros};
use crate::stored::{Loaded, load, put_empty, put_head};
use crate::{Taken, Untaken};
use envelope::reading::read_envelope;
use envelope::{Envelope, EnvelopeRefusal};

// An envelope where it stands in the record.
fn in_record(e: Envelope) -> Envelope
    requires { (e.body ≤ largest most_bits) × (e.next ≤ largest most_bits) }
    ensures { result ≡ in_record e }
{
    Envelope {
        kind: e.kind,
        job: e.job,
        bits: e.bits,
        body: Loaded::HEAD + e.body,
        next: Loaded::HEAD + e.next,
    }
}

// What the reader of whole strings says of the bytes that are held.
fn read_held(rec: &[u8], n: usize) -> Result<Envelope, EnvelopeRefusal>
    requires { head + n ≤ length rec.now }
    ensures { result ≡ envelope_at most_bits (held_in n rec.now) 0 }
{
    let end = Loaded::HEAD + n;
    read_envelope(&rec[Loaded::HEAD..end], 0)
}

fn held_lacks(rec: &[u8], n: usize) -> usize
    requires { head + n ≤ length rec.now }
    ensures { result ≡ missing (held_in n rec.now) }
{
    let end = Loaded::HEAD + n;
    lacking(&rec[Loaded::HEAD..end])
}

// Whether the bytes that are held are the beginning of an envelope: one that ends inside may go on in the next fragment.
#[tactic(auto, unfolding(crate::specs::Mail::unfinished))]
pub(crate) fn is_unfinished(rec: &[u8], n: usize) -> bool
    requires { head + n ≤ length rec.now }
    ensures { result ≡ unfinished most_bits (held_in n rec.now) }
{
    matches!(read_held(rec, n), Err(EnvelopeRefusal::Cut))
}

// Where the envelope behind n bytes begins.
pub(crate) fn place_behind(place: u64, n: usize) -> u64
    ensures { result ≡ later place n }
{
    place.saturating_add(n as u64)
}

// A refused input: nothing is held any more.
pub(crate) fn refuse(rec: &mut [u8], place: u64, r: EnvelopeRefusal) -> Result<Taken, Untaken>
    requires { length rec.old ≡ record_bytes most_bits }
    ensures { after result rec.new ≡ after (Err (Untaken.Refused r)) (record_of most_bits (refused r place)) }
{
    put_empty(rec, r.number() as u8, place);
    Err(Untaken::Refused(r))
}

// With nothing held the fragment is read where it lies, and what is taken of it is put into the record. A refusal is matched by itself: behind
// an arm `Err(EnvelopeRefusal::Cut)` the proof of an arm `Err(r)` does not close, since nothing says there that r is another.
fn begin(rec: &mut [u8], place: u64, fragment: &[u8]) -> Result<Taken, Untaken>
    requires { length rec.old ≡ record_bytes most_bits }
    ensures { after result rec.new ≡ kept most_bits 0 rec.old (joined most_bits place [] fragment.now) }
{
    match read_envelope(fragment, 0) {
        Ok(e) => {
            let n = e.next;
            put_bytes(rec, Loaded::HEAD, &fragment[..n]);
            put_head(rec, Loaded::WHOLE, n, place);
            Ok(Taken::Whole(in_record(e), n))
        }
        Err(r) => match r {
            EnvelopeRefusal::Cut => {
                put_bytes(rec, Loaded::HEAD, fragment);
                put_head(rec, Loaded::PART, fragment.len(), place);
                Ok(Taken::Part(fragment.len()))
            }
            _ => refuse(rec, place, r),
        },
    }
}

// What is held goes on with the fragment. So many bytes are put behind it as it lacks before its answer can change, and it is read again.
fn resume(rec: &mut [u8], n: usize, place: u64, fragment: &[u8]) -> Result<Taken, Untaken>
    requires { (length rec.old ≡ record_bytes most_bits) × (n ≤ largest most_bits) }
    ensures { after result rec.new ≡ resumed most_bits rec.old n place fragment.now }
{
    if !is_unfinished(rec, n) {
        return Err(Untaken::Shape);
    }
    let mut m = n;
    let mut i: usize = 0;
    let mut lacks = held_lacks(rec, m);
    while lacks <= fragment.len() - i {
        let to = i + lacks;
        put_bytes(rec, Loaded::HEAD + m, &fragment[i..to]);
        m += lacks;
        i = to;
        match read_held(rec, m) {
            Ok(e) => {
                put_head(rec, Loaded::WHOLE, m, place);
                return Ok(Taken::Whole(in_record(e), i));
            }
            Err(r) => match r {
                EnvelopeRefusal::Cut => {}
                _ => return refuse(rec, place, r),
            },
        }
        lacks = held_lacks(rec, m);
    }
    put_bytes(rec, Loaded::HEAD + m, &fragment[i..]);
    put_head(rec, Loaded::PART, n + fragment.len(), place);
    Ok(Taken::Part(fragment.len()))
}

// A fragment: the next envelope that it finishes, and the bytes that it took of it; or all is taken, and none is finished.
#[tactic(auto, unfolding(crate::specs::Record::take_at))]
pub fn take(rec: &mut [u8], fragment: &[u8]) -> Result<Taken, Untaken>
    ensures { after result rec.new ≡ take_at most_bits rec.old fragment.now }
{
    match load(rec)? {
        Loaded::Part(n, place) => {
            if n == 0 {
                return begin(rec, place, fragment);
            }
            resume(rec, n, place, fragment)
        }
        Loaded::Whole(n, place) => {
            if fragment.len() == 0 {
                return Ok(Taken::Part(0));
            }
            put_zeros(rec, Loaded::HEAD, n);
            begin(rec, place_behind(place, n), fragment)
        }
    }
}
