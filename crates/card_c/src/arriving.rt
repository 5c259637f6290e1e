// The broker's envelopes as they arrive in fragments. The host keeps the reader's record; a finished envelope stands in it until the next
// call.
ghost use Rattle.std.specs.Prelude.{◌≡◌};
ghost use Rattle.card.specs.Arriving.{end_mail, fresh_mail, take_mail, took};
ghost use Rattle.layout.specs.Calls.{sent};

// A fresh reader in a lent range.
#[unsafe(no_mangle)]
pub extern "C" fn peat_mail_fresh(mail: &mut [u8]) -> u64
    ensures { sent result mail.new ≡ fresh_mail mail.old }
{
    card::peat_mail_fresh(mail)
}

// The next fragment, or what a call left of it: an envelope that it finishes, with its job into the lent range of eight bytes, and the
// bytes that were taken; or the refusal.
#[unsafe(no_mangle)]
pub extern "C" fn peat_mail_take(mail: &mut [u8], fragment: &[u8], job: &mut [u8]) -> u64
    ensures { took result mail.new job.new ≡ take_mail mail.old fragment.now job.old }
{
    card::peat_mail_take(mail, fragment, job)
}

// The input has ended: CUT where an envelope is unfinished.
#[unsafe(no_mangle)]
pub extern "C" fn peat_mail_end(mail: &mut [u8]) -> u64
    ensures { sent result mail.new ≡ end_mail mail.old }
{
    card::peat_mail_end(mail)
}
