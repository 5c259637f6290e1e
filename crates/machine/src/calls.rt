// User requests and responses that are taken: Doc 9880 3.5.3.9 to 3.5.3.13 and Doc 9705 2.3.5.3.7, 2.3.5.3.8 (air),
// Doc 9705 2.3.5.5.7 to 2.3.5.5.14 (ground).
ghost use Rattle.std.specs.Prelude.{◌≡◌};
ghost use Rattle.editions.specs.Editions.{secures, spares};
ghost use Rattle.machine.specs.Calls.{reply_of, sent, security_sent, unless_spared, start_request, start_response, message_request, end_request, end_response, reason_sent, user_abort, call_of, unsent, called};

use crate::event::{Qos, ServicePrimitive, UserData, UserPrimitive, is_dsc};
use crate::outcome::{Invoked, Outcome, StepRefusal, Told};
use crate::record::Record;
use control::{Call, Reply, goes};
use editions::Edition;

// Result; the other value is "rejected", in a D-START "rejected (permanent)".
pub(crate) const ACCEPTED: u64 = 0;

// CPDLCUserAbortReason, where none is given.
pub(crate) const UNDEFINED: u64 = 0;

#[tactic(auto, unfolding(crate::specs::Calls::reply_of))]
pub(crate) fn reply_of(res: u64) -> Reply
    ensures { result ≡ reply_of res }
{
    if res == ACCEPTED {
        Reply::Accepted
    } else {
        Reply::Rejected
    }
}

// The control goes where the call leads; a primitive is invoked with an APDU.
#[tactic(auto, unfolding(crate::specs::Calls::sent))]
fn sent(r: Record, call: Call, invoked: Option<Invoked>, apdu: UserData) -> Outcome
    ensures { result ≡ sent r call invoked apdu }
{
    let c = r.control;
    let n = r.enter(goes(c, call));
    Outcome::taken(n, invoked, None, apdu, false)
}

// The security value that a D-START carries: none where they are not compared.
pub(crate) fn security_sent(edition: Edition, security: u64) -> u64
    ensures { result ≡ security_sent (secures edition) security }
{
    if edition.secures() {
        security
    } else {
        Record::NO_SECURITY
    }
}

#[tactic(auto, unfolding(crate::specs::Calls::start_request))]
fn start_request(r: Record, dsc: bool, class: u64, security: u64) -> Outcome
    ensures { result ≡ start_request r dsc class security }
{
    let edition = r.edition;
    let asked = security_sent(edition, security);
    let n = Record {
        timer: true,
        active: true,
        request: asked,
        ..r
    };
    let q = Qos {
        priority: Qos::HIGH_PRIORITY,
        rer: Qos::LOW_ERROR_RATE,
        routing: class,
    };
    sent(
        n,
        Call::StartRequest(dsc),
        Some(Invoked::DStartRequest(q, asked)),
        UserData::Start(dsc),
    )
}

// The user data of a response or an end: a send; none where it may be left out and there is no message.
fn unless_spared(edition: Edition, holds: bool) -> UserData
    ensures { result ≡ unless_spared (spares edition) holds }
{
    if edition.spares() && !holds {
        UserData::Absent
    } else {
        UserData::Send
    }
}

#[tactic(auto, unfolding(crate::specs::Calls::start_response))]
fn start_response(r: Record, dsc: bool, res: u64, holds: bool) -> Outcome
    ensures { result ≡ start_response r dsc res holds }
{
    let a = reply_of(res);
    let edition = r.edition;
    let answered = security_sent(edition, r.policy);
    sent(
        r,
        Call::StartResponse(dsc, a),
        Some(Invoked::DStartResponse(res, answered)),
        unless_spared(edition, holds),
    )
}

#[tactic(auto, unfolding(crate::specs::Calls::message_request))]
fn message_request(r: Record, job: u64) -> Outcome
    ensures { result ≡ message_request r job }
{
    sent(
        Record { highest: job, ..r },
        Call::MessageRequest,
        Some(Invoked::DDataRequest),
        UserData::Send,
    )
}

#[tactic(auto, unfolding(crate::specs::Calls::end_request))]
fn end_request(r: Record, dsc: bool, holds: bool) -> Outcome
    ensures { result ≡ end_request r dsc holds }
{
    let edition = r.edition;
    sent(
        r,
        Call::EndRequest(dsc),
        Some(Invoked::DEndRequest),
        unless_spared(edition, holds),
    )
}

#[tactic(auto, unfolding(crate::specs::Calls::end_response))]
fn end_response(r: Record, dsc: bool, res: u64, holds: bool) -> Outcome
    ensures { result ≡ end_response r dsc res holds }
{
    let a = reply_of(res);
    let edition = r.edition;
    sent(
        r,
        Call::EndResponse(dsc, a),
        Some(Invoked::DEndResponse(res)),
        unless_spared(edition, holds),
    )
}

// No reason given means undefined.
fn reason_sent(given: bool, reason: u64) -> u64
    ensures { result ≡ reason_sent given reason }
{
    if given { reason } else { UNDEFINED }
}

#[tactic(auto, unfolding(crate::specs::Calls::user_abort))]
fn user_abort(r: Record, given: bool, reason: u64) -> Outcome
    ensures { result ≡ user_abort r given reason }
{
    let x = reason_sent(given, reason);
    sent(
        r,
        Call::UserAbort,
        Some(Invoked::DAbortRequest(ServicePrimitive::USER)),
        UserData::AbortUser(x),
    )
}

// What it is to the control.
#[tactic(auto, unfolding(crate::specs::Calls::call_of))]
pub(crate) fn call_of(u: UserPrimitive) -> Call
    ensures { result ≡ call_of u }
{
    match u {
        UserPrimitive::StartServiceRequest(mode, _, _) => Call::StartRequest(is_dsc(mode)),
        UserPrimitive::StartServiceResponse(dsc, result, _) => Call::StartResponse(
            dsc,
            reply_of(result),
        ),
        UserPrimitive::MessageServiceRequest(_, _) => Call::MessageRequest,
        UserPrimitive::EndServiceRequest(dsc, _) => Call::EndRequest(dsc),
        UserPrimitive::EndServiceResponse(dsc, result, _) => Call::EndResponse(
            dsc,
            reply_of(result),
        ),
        UserPrimitive::UserAbortServiceRequest(_, _) => Call::UserAbort,
    }
}

// A message request without a CPDLC message, then one whose job is not above the highest taken.
#[tactic(auto, unfolding(crate::specs::Calls::unsent))]
pub(crate) fn unsent(highest: u64, u: UserPrimitive) -> Option<StepRefusal>
    ensures { result ≡ unsent highest u }
{
    match u {
        UserPrimitive::MessageServiceRequest(false, _) => Some(StepRefusal::NoMessage),
        UserPrimitive::MessageServiceRequest(true, job) if job <= highest => Some(
            StepRefusal::Repeat,
        ),
        _ => None,
    }
}

// A user primitive that is not refused.
#[tactic(auto, unfolding(crate::specs::Calls::called))]
pub(crate) fn called(r: Record, u: UserPrimitive) -> Outcome
    ensures { result ≡ called r u }
{
    match u {
        UserPrimitive::StartServiceRequest(mode, class, security) => start_request(
            r,
            is_dsc(mode),
            class,
            security,
        ),
        UserPrimitive::StartServiceResponse(dsc, result, holds) => start_response(
            r, dsc, result, holds,
        ),
        UserPrimitive::MessageServiceRequest(_, job) => message_request(r, job),
        UserPrimitive::EndServiceRequest(dsc, holds) => end_request(r, dsc, holds),
        UserPrimitive::EndServiceResponse(dsc, result, holds) => end_response(
            r, dsc, result, holds,
        ),
        UserPrimitive::UserAbortServiceRequest(given, reason) => user_abort(r, given, reason),
    }
}
