// The broker's envelopes as they arrive in fragments. The host keeps the reader's record; a finished envelope stands in it until the next
// call.
ghost use Rattle.std.specs.Prelude.{Ok, ◌≡◌, length};
ghost use Rattle.card.specs.Arriving.{end_mail, fresh_mail, job_by, take_mail, taken_number, took};
ghost use Rattle.card.specs.Mail.{job_bytes};
ghost use Rattle.layout.specs.Calls.{sent};

use crate::mail::{JOB_BYTES, packed, put_job};
use envelope::Envelope;
use fragments::ending::end;
use fragments::stored::make_fresh;
use fragments::taking::take;
use fragments::{Taken, Untaken};
use words::Limit;

// A finished envelope and the bytes that were taken, in one number.
#[tactic(auto, unfolding(crate::specs::Arriving::taken_number))]
fn whole_number(e: Envelope, n: usize) -> u64
    ensures { result ≡ taken_number (Ok (Taken.Whole e n)) }
{
    packed(Envelope {
        kind: e.kind,
        job: e.job,
        bits: e.bits,
        body: e.body,
        next: n,
    })
}

// The bytes that were taken, in one number.
#[tactic(auto, unfolding(crate::specs::Arriving::taken_number))]
fn part_number(n: usize) -> u64
    ensures { result ≡ taken_number (Ok (Taken.Part n)) }
{
    packed(Envelope {
        kind: 0,
        job: 0,
        bits: 0,
        body: 0,
        next: n,
    })
}

// What a call answers, in one number.
#[tactic(auto, unfolding(crate::specs::Arriving::taken_number))]
fn taken_number(t: Result<Taken, Untaken>) -> u64
    ensures { result ≡ taken_number t }
{
    match t {
        Ok(Taken::Whole(e, n)) => whole_number(e, n),
        Ok(Taken::Part(n)) => part_number(n),
        Err(x) => x.number(),
    }
}

// The job of an envelope that is finished.
#[tactic(auto, unfolding(crate::specs::Arriving::job_by))]
fn put_taken_job(t: Result<Taken, Untaken>, job: &mut [u8])
    requires { length job.old ≡ job_bytes }
    ensures { job.new ≡ job_by job.old t }
{
    if let Ok(Taken::Whole(e, _)) = t {
        put_job(job, e.job);
    }
}

// A fresh reader in a lent range.
#[unsafe(no_mangle)]
pub extern "C" fn peat_mail_fresh(mail: &mut [u8]) -> u64
    ensures { sent result mail.new ≡ fresh_mail mail.old }
{
    taken_number(make_fresh(mail))
}

// The next fragment, or what a call left of it: an envelope that it finishes, with its job into the lent range of eight bytes, and the
// bytes that were taken; or the refusal.
#[unsafe(no_mangle)]
pub extern "C" fn peat_mail_take(mail: &mut [u8], fragment: &[u8], job: &mut [u8]) -> u64
    ensures { took result mail.new job.new ≡ take_mail mail.old fragment.now job.old }
{
    if job.len() != JOB_BYTES {
        return Limit::SHAPE;
    }
    let t = take(mail, fragment);
    put_taken_job(t, job);
    taken_number(t)
}

// The input has ended: CUT where an envelope is unfinished.
#[unsafe(no_mangle)]
pub extern "C" fn peat_mail_end(mail: &mut [u8]) -> u64
    ensures { sent result mail.new ≡ end_mail mail.old }
{
    taken_number(end(mail))
}
