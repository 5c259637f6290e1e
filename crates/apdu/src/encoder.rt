// An APDU written: what stands before the fields of each alternative waits for the first of them.
ghost use Rattle.std.specs.Prelude.{◌≡◌, true, ◌&&◌, ◌++◌, ◌≤◌};
ghost use Rattle.bits.specs.Put.{left, put_if};
ghost use Rattle.fields.specs.Encodings.{index_bits, whole_fits};
ghost use Rattle.apdu.specs.Sizes.{all_bits, bit, buffer_least, provider_last, user_last};
ghost use Rattle.apdu.specs.Headings.{response_last};
ghost use Rattle.apdu.specs.Pdus.{abort_provider, abort_user, content_in, forward, forward_response, forwards, index_of, items_in, last_of, lent, pdu_in, send, start};
ghost use Rattle.apdu.specs.Encoding.{alternative, mode_bits, mode_fits, pdu_bits};
ghost use Rattle.apdu.specs.InPlace.{forward_by};
ghost use Rattle.apdu.specs.Writing.{Waits, apdu_fits, data_fits, done, forward_fits, waiting, write_out};

use crate::data_writer::{place, writable, write_data};
use crate::decoder::ALL;
use crate::heading_writer::write_forward;
use crate::leading::{index_of, last_of};
use crate::shape::{has_forwards, mode_fits};
use crate::{Apdu, Data, Forward, Kind};
use fields::Lead;
use pdus::PduType;
use words::Unwritten;

// What stands before the message data of a send: the alternative, 0 11 or 0 011.
pub(crate) fn send_front(pdus: PduType) -> Lead
    ensures { Waits 5 result × (waiting result ≡ alternative pdus Kind.Send) }
{
    match pdus {
        PduType::AircraftPdus => Lead {
            width: 3,
            number: 3,
        },
        PduType::GroundPdus => Lead {
            width: 4,
            number: 3,
        },
    }
}

// What stands before those of a start: the alternative, and the mode. startup: 0 010, with no mode. startdown: 0 10 and the presence bit, which is 0
// for the default; else 1, and the mode.
pub(crate) fn start_front(pdus: PduType, m: u64) -> Lead
    requires { mode_fits pdus m ≡ true }
    ensures { Waits 5 result × (waiting result ≡ alternative pdus Kind.Start ++ mode_bits pdus m) }
{
    match pdus {
        PduType::GroundPdus => Lead {
            width: 4,
            number: 2,
        },
        PduType::AircraftPdus => {
            if m == 0 {
                return Lead {
                    width: 4,
                    number: 4,
                };
            }
            Lead {
                width: 5,
                number: 11,
            }
        }
    }
}

#[tactic(auto, unfolding(crate::specs::Encoding::pdu_bits))]
pub fn put_send(
    buf: &mut [u8],
    pdus: PduType,
    d: Data,
    ids: &[u8],
    msgs: &[u8],
    checks: &[u8],
) -> Result<usize, Unwritten>
    ensures { done result buf.new ≡ write_out (data_fits (lent ids.now) (lent msgs.now) (lent checks.now) d) buf.old (pdu_bits pdus (send (content_in (lent ids.now) (lent msgs.now) (lent checks.now) d))) }
{
    write_data(buf, send_front(pdus), d, ids, msgs, checks)
}

pub fn put_start(
    buf: &mut [u8],
    pdus: PduType,
    m: u64,
    d: Data,
    ids: &[u8],
    msgs: &[u8],
    checks: &[u8],
) -> Result<usize, Unwritten>
    ensures { done result buf.new ≡ write_out (mode_fits pdus m && data_fits (lent ids.now) (lent msgs.now) (lent checks.now) d) buf.old (pdu_bits pdus (start m (content_in (lent ids.now) (lent msgs.now) (lent checks.now) d))) }
{
    writable(buf.len(), mode_fits(pdus, m))?;
    write_data(buf, start_front(pdus, m), d, ids, msgs, checks)
}

// The alternative: its extension bit and its index.
fn put_alternative(buf: &mut [u8], pdus: PduType, kind: Kind) -> Option<usize>
    ensures { left result buf.new ≡ put_if (whole_fits 0 (last_of pdus) (index_of kind)) buf.old all_bits 0 (alternative pdus kind) }
{
    fields::put_extensible_index(buf, ALL, 0, last_of(pdus), index_of(kind))
}

// An alternative that holds an index and nothing else.
pub(crate) fn put_choice(
    buf: &mut [u8],
    pdus: PduType,
    kind: Kind,
    last: u64,
    v: u64,
) -> Result<usize, Unwritten>
    requires { index_of kind ≤ last_of pdus }
    ensures { done result buf.new ≡ write_out (whole_fits 0 last v) buf.old (alternative pdus kind ++ index_bits last v) }
{
    writable(buf.len(), v <= last)?;
    let p = place(put_alternative(buf, pdus, kind));
    let n = place(fields::put_extensible_index(buf, ALL, p, last, v));
    bits::pad(buf, ALL, n);
    Ok(n)
}

#[tactic(auto, unfolding(crate::specs::Encoding::pdu_bits))]
pub fn put_abort_user(buf: &mut [u8], pdus: PduType, reason: u64) -> Result<usize, Unwritten>
    ensures { done result buf.new ≡ write_out (whole_fits 0 user_last reason) buf.old (pdu_bits pdus (abort_user reason)) }
{
    put_choice(buf, pdus, Kind::AbortUser, Apdu::USER_LAST, reason)
}

#[tactic(auto, unfolding(crate::specs::Encoding::pdu_bits))]
pub fn put_abort_provider(buf: &mut [u8], pdus: PduType, reason: u64) -> Result<usize, Unwritten>
    ensures { done result buf.new ≡ write_out (whole_fits 0 provider_last reason) buf.old (pdu_bits pdus (abort_provider reason)) }
{
    put_choice(buf, pdus, Kind::AbortProvider, Apdu::PROVIDER_LAST, reason)
}

// ATCForwardMessage as an APDU, which GroundPDUs alone has, and so its response. Its message stands behind its count, or in place.
pub fn put_forward_by(
    buf: &mut [u8],
    pdus: PduType,
    counted: bool,
    f: Forward,
    msgs: &[u8],
) -> Result<usize, Unwritten>
    ensures { done result buf.new ≡ write_out (forwards pdus && forward_fits (lent msgs.now) f) buf.old (alternative pdus Kind.Forward ++ forward_by counted f.heading (items_in (lent msgs.now) bit f.message)) }
{
    writable(buf.len(), has_forwards(pdus))?;
    let front = Lead {
        width: 4,
        number: 4,
    };
    write_forward(buf, front, counted, f, msgs)
}

#[tactic(auto, unfolding(crate::specs::Encoding::pdu_bits))]
pub fn put_forward_pdu(
    buf: &mut [u8],
    pdus: PduType,
    f: Forward,
    msgs: &[u8],
) -> Result<usize, Unwritten>
    ensures { done result buf.new ≡ write_out (forwards pdus && forward_fits (lent msgs.now) f) buf.old (pdu_bits pdus (forward f.heading (items_in (lent msgs.now) bit f.message))) }
{
    put_forward_by(buf, pdus, true, f, msgs)
}

pub fn put_forward_response(buf: &mut [u8], pdus: PduType, res: u64) -> Result<usize, Unwritten>
    ensures { done result buf.new ≡ write_out (forwards pdus && whole_fits 0 response_last res) buf.old (pdu_bits pdus (forward_response res)) }
{
    writable(buf.len(), has_forwards(pdus))?;
    put_choice(buf, pdus, Kind::ForwardResponse, Apdu::RESPONSE_LAST, res)
}

// The APDU, whose identifier stands in ids, message in msgs and check in checks.
#[tactic(auto, unfolding(crate::specs::Writing::apdu_fits, crate::specs::Pdus::pdu_in))]
pub fn put_apdu(
    buf: &mut [u8],
    pdus: PduType,
    a: Apdu,
    ids: &[u8],
    msgs: &[u8],
    checks: &[u8],
) -> Result<usize, Unwritten>
    ensures { done result buf.new ≡ write_out (apdu_fits pdus (lent ids.now) (lent msgs.now) (lent checks.now) a) buf.old (pdu_bits pdus (pdu_in (lent ids.now) (lent msgs.now) (lent checks.now) a)) }
{
    match a {
        Apdu::AbortUser(r) => put_abort_user(buf, pdus, r),
        Apdu::AbortProvider(r) => put_abort_provider(buf, pdus, r),
        Apdu::Start(m, d) => put_start(buf, pdus, m, d, ids, msgs, checks),
        Apdu::Send(d) => put_send(buf, pdus, d, ids, msgs, checks),
        Apdu::Forward(f) => put_forward_pdu(buf, pdus, f, msgs),
        Apdu::ForwardResponse(x) => put_forward_response(buf, pdus, x),
    }
}
