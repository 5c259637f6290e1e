// The broker's envelopes for the host. An envelope is read at the front of lent bytes, so that every place in the answer counts from there.
ghost use Rattle.std.specs.Prelude.{◌≡◌, ◌+◌, ◌≤◌, length};
ghost use Rattle.std.proofs.lemmas.List.Edits.{sets};
ghost use Rattle.book.specs.Books.{octets};
ghost use Rattle.card.specs.Mail.{job_bytes, put_envelope, read_by, read_envelope, said, written_answer};
ghost use Rattle.layout.specs.Calls.{sent};

use envelope::reading::read_envelope;
use envelope::writing::write_envelope;
use envelope::{Envelope, EnvelopeRefusal};
use words::{Limit, Unwritten};

// What an envelope says, in one number.
pub(crate) fn packed(e: Envelope) -> u64
    ensures { result ≡ said e }
{
    let places = (e.body % 65536) as u64 + 65536 * ((e.next % 65536) as u64);
    256 * (e.kind % 256 + 256 * (e.bits % 65536 + 65536 * places))
}

// The bytes that take a job.
pub(crate) const JOB_BYTES: usize = 8;

// A number to a byte position, in eight bytes. A loop of exactly eight turns: the compiler makes one store of it.
pub(crate) fn put_eight(b: &mut [u8], at: usize, v: u64)
    requires { at + 8 ≤ length b.old }
    ensures { b.new ≡ sets b.old at (octets 8 v) }
{
    for i in 0..8usize {
        b[at + i] = ((v >> (8 * (7 - i))) % 256) as u8;
    }
}

// A job into the eight bytes that are lent for it.
pub(crate) fn put_job(job: &mut [u8], number: u64)
    requires { length job.old ≡ job_bytes }
    ensures { job.new ≡ octets job_bytes number }
{
    put_eight(job, 0, number);
}

// What was read: its number, and the job where there is one.
#[tactic(auto, unfolding(crate::specs::Mail::read_by))]
fn told(r: Result<Envelope, EnvelopeRefusal>, job: &mut [u8]) -> u64
    requires { length job.old ≡ job_bytes }
    ensures { sent result job.new ≡ read_by job.old r }
{
    match r {
        Ok(e) => {
            put_job(job, e.job);
            packed(e)
        }
        Err(x) => x.number(),
    }
}

// The envelope at the front of lent bytes: its kind, bit count, and the bytes before its body and before the next envelope, and its job
// into the lent range of eight bytes; or the refusal.
#[tactic(auto, unfolding(crate::specs::Mail::read_envelope))]
#[unsafe(no_mangle)]
pub extern "C" fn peat_read_envelope(lent: &[u8], job: &mut [u8]) -> u64
    ensures { sent result job.new ≡ read_envelope lent.now job.old }
{
    if job.len() != JOB_BYTES {
        return Limit::SHAPE;
    }
    told(read_envelope(lent, 0), job)
}

// What the writer answers, in one number.
#[tactic(auto, unfolding(crate::specs::Mail::written_answer))]
fn written_answer(w: Result<usize, Unwritten>) -> u64
    ensures { result ≡ written_answer w }
{
    match w {
        Ok(n) => 256 * ((n % 65536) as u64),
        Err(x) => x.number(),
    }
}

// An envelope into a lent buffer, from its front on: the bytes that it takes; or the refusal.
#[tactic(auto, unfolding(crate::specs::Mail::put_envelope))]
#[unsafe(no_mangle)]
pub extern "C" fn peat_write_envelope(
    kind: u64,
    job: u64,
    bits: u64,
    body: &[u8],
    out: &mut [u8],
) -> u64
    ensures { sent result out.new ≡ put_envelope out.old kind job bits body.now }
{
    written_answer(write_envelope(out, kind, job, bits, body))
}
