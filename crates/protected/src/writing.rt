// What the step writes: an APDU that goes out, and what a user is delivered.
ghost use Rattle.std.specs.Prelude.{◌≡◌};
ghost use Rattle.apdu.specs.Writing.{done, forward_fits, write_out};
ghost use Rattle.front.specs.Padding.{lent};
ghost use Rattle.front.specs.Body.{given};
ghost use Rattle.front.specs.Alternatives.{with};
ghost use Rattle.front.specs.Apdus.{apdu, apdu_bits};
ghost use Rattle.protected.specs.Bodies.{choice_of, forward_run, type22};
ghost use Rattle.protected.specs.Sending.{replies, sends, shows};

use crate::places::data_of;
use apdu::Forward;
use front::Found;
use machine::event::UserData;
use pdus::{Content, PduType};
use words::Unwritten;

// Does what the host gives keep its sizes, and do the lent bytes hold it?
pub fn content_fits(c: Content, ids: &[u8], msgs: &[u8], checks: &[u8]) -> bool
    ensures { result ≡ type22.send.stands (given ids.now msgs.now checks.now) c }
{
    apdu::data_fits(data_of(c), ids, msgs, checks)
}

// An APDU with its content. A forward is written by `put_forward`.
#[tactic(auto, using(crate::proofs::Leaves::none_sends, crate::proofs::Leaves::start_sends, crate::proofs::Leaves::send_sends, crate::proofs::Leaves::user_sends, crate::proofs::Leaves::provider_sends, crate::proofs::Leaves::response_sends))]
pub fn put_sent(
    buf: &mut [u8],
    pdus: PduType,
    a: UserData,
    c: Content,
    ids: &[u8],
    msgs: &[u8],
    checks: &[u8],
) -> Result<usize, Unwritten>
    ensures { done result buf.new ≡ sends pdus (given ids.now msgs.now checks.now) (with a c) buf.old }
{
    match a {
        UserData::Absent | UserData::NotValid | UserData::Forward => Ok(0),
        UserData::Start(m) => apdu::put_start(
            buf,
            pdus,
            u64::from(m),
            data_of(c),
            ids,
            msgs,
            checks,
        ),
        UserData::Send => apdu::put_send(buf, pdus, data_of(c), ids, msgs, checks),
        UserData::AbortUser(x) => apdu::put_abort_user(buf, pdus, x),
        UserData::AbortProvider(x) => apdu::put_abort_provider(buf, pdus, x),
        UserData::ForwardResponse(x) => apdu::put_forward_response(buf, pdus, x),
    }
}

// What answers a primitive of the dialogue service.
#[tactic(auto, using(crate::proofs::Leaves::none_replies, crate::proofs::Leaves::provider_replies, crate::proofs::Leaves::response_replies))]
pub fn put_reply(buf: &mut [u8], pdus: PduType, a: UserData) -> Result<usize, Unwritten>
    ensures { done result buf.new ≡ replies pdus a buf.old }
{
    match a {
        UserData::AbortProvider(x) => apdu::put_abort_provider(buf, pdus, x),
        UserData::ForwardResponse(x) => apdu::put_forward_response(buf, pdus, x),
        UserData::Absent
        | UserData::NotValid
        | UserData::Start(_)
        | UserData::Send
        | UserData::AbortUser(_)
        | UserData::Forward => Ok(0),
    }
}

// A forward message as an APDU, which GroundPDUs alone has.
#[tactic(auto, using(crate::proofs::Leaves::forward_written))]
pub fn put_forward(buf: &mut [u8], f: Forward, msgs: &[u8]) -> Result<usize, Unwritten>
    ensures { done result buf.new ≡ write_out (forward_fits (lent msgs.now) f) buf.old (apdu_bits (choice_of PduType.GroundPdus) (apdu (choice_of PduType.GroundPdus) 4 (forward_run (lent msgs.now) f))) }
{
    apdu::put_forward_pdu(buf, PduType::GroundPdus, f, msgs)
}

// What a user is delivered of what was found in lent bytes.
#[tactic(auto, using(crate::proofs::Leaves::passed_shows, crate::proofs::Leaves::data_shows))]
pub fn put_shown(buf: &mut [u8], x: Found, bytes: &[u8]) -> Result<usize, Unwritten>
    ensures { done result buf.new ≡ shows (lent bytes.now) x buf.old }
{
    let c = x.content;
    match x.pdu {
        UserData::Forward => apdu::put_passed(buf, bytes, c.message.at, c.message.count),
        _ => apdu::put_data(buf, data_of(c), bytes, bytes, bytes),
    }
}
