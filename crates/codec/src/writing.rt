// What the host gives is right for an edition, and an APDU is written in it.
ghost use Rattle.std.specs.Prelude.{◌≡◌, ◌&&◌};
ghost use Rattle.fields.specs.Encodings.{whole_fits};
ghost use Rattle.apdu.specs.Sizes.{bit};
ghost use Rattle.apdu.specs.Pdus.{abort_user, content_in, forward, forwards, items_in, lent, send, start};
ghost use Rattle.apdu.specs.Encoding.{mode_fits};
ghost use Rattle.apdu.specs.Writing.{data_fits, done, forward_fits, write_out};
ghost use Rattle.codec.specs.Codec.{forward_given_fits, given_fits, pdu_bits, user_last};

use crate::reading::USER_LAST;
use apdu::{Data, Forward};
use editions::Edition;
use pdus::PduType;
use plain::sent_by;
use words::Unwritten;

// Message data that the host gives to a side that writes a type.
pub fn given_fits(
    edition: Edition,
    pdus: PduType,
    d: Data,
    ids: &[u8],
    msgs: &[u8],
    checks: &[u8],
) -> bool
    ensures { result ≡ given_fits edition pdus (lent ids.now) (lent msgs.now) (lent checks.now) d }
{
    match edition {
        Edition::Plain => plain::given_fits(sent_by(pdus), d, ids, msgs, checks),
        Edition::Protected => apdu::data_fits(d, ids, msgs, checks),
    }
}

// A forward message that it gives.
pub fn forward_given_fits(edition: Edition, f: Forward, msgs: &[u8]) -> bool
    ensures { result ≡ forward_given_fits edition (lent msgs.now) f }
{
    match edition {
        Edition::Plain => plain::forward_given_fits(f, msgs),
        Edition::Protected => apdu::forward_fits(f, msgs),
    }
}

#[tactic(auto, unfolding(crate::specs::Codec::pdu_bits, apdu::specs::Encoding::pdu_bits, apdu::specs::Pdus::content_in))]
pub fn put_start(
    edition: Edition,
    buf: &mut [u8],
    pdus: PduType,
    m: u64,
    d: Data,
    ids: &[u8],
    msgs: &[u8],
    checks: &[u8],
) -> Result<usize, Unwritten>
    ensures { done result buf.new ≡ write_out (mode_fits pdus m && data_fits (lent ids.now) (lent msgs.now) (lent checks.now) d) buf.old (pdu_bits edition pdus (start m (content_in (lent ids.now) (lent msgs.now) (lent checks.now) d))) }
{
    match edition {
        Edition::Plain => apdu::put_start_in_place(buf, pdus, m, d, ids, msgs, checks),
        Edition::Protected => apdu::put_start(buf, pdus, m, d, ids, msgs, checks),
    }
}

#[tactic(auto, unfolding(crate::specs::Codec::pdu_bits, apdu::specs::Encoding::pdu_bits, apdu::specs::Pdus::content_in))]
pub fn put_send(
    edition: Edition,
    buf: &mut [u8],
    pdus: PduType,
    d: Data,
    ids: &[u8],
    msgs: &[u8],
    checks: &[u8],
) -> Result<usize, Unwritten>
    ensures { done result buf.new ≡ write_out (data_fits (lent ids.now) (lent msgs.now) (lent checks.now) d) buf.old (pdu_bits edition pdus (send (content_in (lent ids.now) (lent msgs.now) (lent checks.now) d))) }
{
    match edition {
        Edition::Plain => apdu::put_send_in_place(buf, pdus, d, ids, msgs, checks),
        Edition::Protected => apdu::put_send(buf, pdus, d, ids, msgs, checks),
    }
}

#[tactic(auto, unfolding(crate::specs::Codec::pdu_bits, apdu::specs::Encoding::pdu_bits))]
pub fn put_abort_user(
    edition: Edition,
    buf: &mut [u8],
    pdus: PduType,
    reason: u64,
) -> Result<usize, Unwritten>
    ensures { done result buf.new ≡ write_out (whole_fits 0 (user_last edition) reason) buf.old (pdu_bits edition pdus (abort_user reason)) }
{
    match edition {
        Edition::Plain => apdu::put_abort_within(buf, pdus, USER_LAST, reason),
        Edition::Protected => apdu::put_abort_user(buf, pdus, reason),
    }
}

#[tactic(auto, unfolding(crate::specs::Codec::pdu_bits))]
pub fn put_forward_pdu(
    edition: Edition,
    buf: &mut [u8],
    pdus: PduType,
    f: Forward,
    msgs: &[u8],
) -> Result<usize, Unwritten>
    ensures { done result buf.new ≡ write_out (forwards pdus && forward_fits (lent msgs.now) f) buf.old (pdu_bits edition pdus (forward f.heading (items_in (lent msgs.now) bit f.message))) }
{
    // Its message stands behind its count in type 22.
    apdu::put_forward_by(buf, pdus, edition == Edition::Protected, f, msgs)
}
