// The broker's envelopes for the host. An envelope is read at the front of lent bytes, so that every place in the answer counts from there.
ghost use Rattle.std.specs.Prelude.{◌≡◌};
ghost use Rattle.card.specs.Mail.{put_envelope, read_envelope};
ghost use Rattle.layout.specs.Calls.{sent};

// The envelope at the front of lent bytes: its kind, bit count, and the bytes before its body and before the next envelope, and its job
// into the lent range of eight bytes; or the refusal.
#[unsafe(no_mangle)]
pub extern "C" fn peat_read_envelope(lent: &[u8], job: &mut [u8]) -> u64
    ensures { sent result job.new ≡ read_envelope lent.now job.old }
{
    card::peat_read_envelope(lent, job)
}

// An envelope into a lent buffer, from its front on: the bytes that it takes; or the refusal.
#[unsafe(no_mangle)]
pub extern "C" fn peat_write_envelope(
    kind: u64,
    job: u64,
    bits: u64,
    body: &[u8],
    out: &mut [u8],
) -> u64
    ensures { sent result out.new ≡ put_envelope out.old kind job bits body.now }
{
    card::peat_write_envelope(kind, job, bits, body, out)
}
