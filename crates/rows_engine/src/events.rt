// What the engine reads of an event: the title of its row, the condition that holds first, and its parameters.
ghost use Rattle.std.specs.Prelude.{◌≡◌};
ghost use Rattle.editions.specs.Editions.{secures, spares};
ghost use Rattle.machine.specs.Calls.{unless_spared};
ghost use Rattle.machine.specs.Faults.{turned_away, peer_fits, from_centre, differs, send_allowed};
ghost use Rattle.rows.specs.Events.{user_title, service_title, title_of, pdu_first, user_condition, forward_condition, start_condition, answer_condition, abort_condition, send_condition, indication_condition, confirmation_condition, service_condition, condition_of, carried, user_parameters, service_parameters, parameters_of};

use crate::codes;
use control::{Side, awaits_response};
use editions::Edition;
use machine::event::{Event, Qos, ServicePrimitive, UserData, UserPrimitive};
use machine::record::Record;
use rows::Parameters;

// Result "accepted"; the reason of a user abort that gives none.
const ACCEPTED: u64 = 0;

const UNDEFINED: u64 = 0;

// What a facility sends to the ground machine is a forward.
fn from_centre(side: Side, peer: u64) -> bool
    ensures { result ≡ from_centre side peer }
{
    side == Side::Ground && peer == ServicePrimitive::FACILITY
}

fn peer_fits(side: Side, peer: u64) -> bool
    ensures { result ≡ peer_fits side peer }
{
    side == Side::Ground || peer == ServicePrimitive::FACILITY
}

fn turns_away(res: u64, source: u64) -> bool
    ensures { result ≡ turned_away res source }
{
    res == ServicePrimitive::TRANSIENT || source == ServicePrimitive::DS_PROVIDER
}

fn user_title(u: UserPrimitive) -> u64
    ensures { result ≡ user_title u }
{
    match u {
        UserPrimitive::StartServiceRequest(UserPrimitive::DSC, _, _) => codes::DSC_START_REQUEST,
        UserPrimitive::StartServiceRequest(_, _, _) => codes::START_REQUEST,
        UserPrimitive::StartServiceResponse(true, ACCEPTED, _) =>
            codes::DSC_START_RESPONSE_ACCEPTED,
        UserPrimitive::StartServiceResponse(true, _, _) => codes::DSC_START_RESPONSE_REJECTED,
        UserPrimitive::StartServiceResponse(false, ACCEPTED, _) => codes::START_RESPONSE_ACCEPTED,
        UserPrimitive::StartServiceResponse(false, _, _) => codes::START_RESPONSE_REJECTED,
        UserPrimitive::MessageServiceRequest(_, _) => codes::MESSAGE_REQUEST,
        UserPrimitive::EndServiceRequest(true, _) => codes::DSC_END_REQUEST,
        UserPrimitive::EndServiceRequest(false, _) => codes::END_REQUEST,
        UserPrimitive::EndServiceResponse(true, ACCEPTED, _) => codes::DSC_END_RESPONSE_ACCEPTED,
        UserPrimitive::EndServiceResponse(true, _, _) => codes::DSC_END_RESPONSE_REJECTED,
        UserPrimitive::EndServiceResponse(false, ACCEPTED, _) => codes::END_RESPONSE_ACCEPTED,
        UserPrimitive::EndServiceResponse(false, _, _) => codes::END_RESPONSE_REJECTED,
        UserPrimitive::UserAbortServiceRequest(_, _) => codes::USER_ABORT,
    }
}

fn service_title(p: ServicePrimitive) -> u64
    ensures { result ≡ service_title p }
{
    match p {
        ServicePrimitive::DStartIndication(_, _, _, _) => codes::D_START,
        ServicePrimitive::DStartConfirmation(ACCEPTED, _, _, _) => codes::D_START_ACCEPTED,
        ServicePrimitive::DStartConfirmation(_, _, _, _) => codes::D_START_REJECTED,
        ServicePrimitive::DDataIndication => codes::D_DATA,
        ServicePrimitive::DEndIndication => codes::D_END,
        ServicePrimitive::DEndConfirmation(ACCEPTED) => codes::D_END_ACCEPTED,
        ServicePrimitive::DEndConfirmation(_) => codes::D_END_REJECTED,
        ServicePrimitive::DAbortIndication(_) => codes::D_ABORT,
        ServicePrimitive::DPAbortIndication => codes::D_P_ABORT,
    }
}

pub fn title_of(e: Event) -> u64
    ensures { result ≡ title_of e }
{
    match e {
        Event::User(u) => user_title(u),
        Event::Forward(_, _) => codes::FORWARD_REQUEST,
        Event::Service(p, _) => service_title(p),
        Event::TimerExpires => codes::EXPIRY,
        Event::UnrecoverableSystemError => codes::SYSTEM_ERROR,
    }
}

fn user_condition(r: Record, u: UserPrimitive) -> u64
    ensures { result ≡ user_condition r u }
{
    match u {
        UserPrimitive::MessageServiceRequest(false, _) => codes::NO_MESSAGE,
        UserPrimitive::MessageServiceRequest(true, job) if job <= r.highest => codes::REPEAT,
        _ => codes::PLAIN,
    }
}

// A PDU that may be absent counts, where it is, as the send that it stands for.
fn pdu_first(may: bool, a: UserData, k: u64) -> u64
    ensures { result ≡ pdu_first may a k }
{
    match a {
        UserData::Absent if may => codes::SEND,
        UserData::Absent => codes::NO_PDU,
        UserData::NotValid => codes::INVALID_PDU,
        _ => k,
    }
}

fn forward_condition(r: Record, version: u64, a: UserData) -> u64
    ensures { result ≡ forward_condition r version a }
{
    if !matches!(a, UserData::Forward) {
        codes::OTHER_PDU
    } else if !r.forwards {
        codes::UNSUPPORTED_FORWARD
    } else if version == r.version {
        codes::EQUAL_FORWARD
    } else {
        codes::OTHER_FORWARD
    }
}

fn start_condition(side: Side, r: Record, peer: u64, version: u64, a: UserData) -> u64
    ensures { result ≡ start_condition side r peer version a }
{
    if from_centre(side, peer) {
        return forward_condition(r, version, a);
    }
    match a {
        UserData::Start(true) => codes::DSC_START,
        UserData::Start(false) if peer_fits(side, peer) => codes::START,
        UserData::Start(false) => codes::START_OF_AIRCRAFT,
        _ => codes::OTHER_PDU,
    }
}

fn send_allowed(may: bool, live: bool, a: UserData) -> bool
    ensures { result ≡ send_allowed may live a }
{
    !(may && live) && matches!(a, UserData::Send)
}

fn answer_condition(may: bool, live: bool, a: UserData) -> u64
    ensures { result ≡ answer_condition may live a }
{
    let k = match a {
        UserData::ForwardResponse(_) => codes::RESPONSE,
        _ if send_allowed(may, live, a) => codes::SEND,
        _ => codes::OTHER_PDU,
    };
    pdu_first(may, a, k)
}

fn abort_condition(o: u64, a: UserData) -> u64
    ensures { result ≡ abort_condition o a }
{
    match a {
        UserData::AbortUser(_) if o == ServicePrimitive::USER => codes::ABORT_OF_USER,
        UserData::AbortProvider(_) if o == ServicePrimitive::PROVIDER => codes::ABORT_OF_PROVIDER,
        _ => codes::OTHER_PDU,
    }
}

fn send_condition(may: bool, a: UserData) -> u64
    ensures { result ≡ send_condition may a }
{
    let k = match a {
        UserData::Send => codes::SEND,
        _ => codes::OTHER_PDU,
    };
    pdu_first(may, a, k)
}

// A security value that is not the one it is compared with, where they are compared.
fn differs(edition: Edition, s: u64, other: u64) -> bool
    ensures { result ≡ differs (secures edition) s other }
{
    edition.secures() && s != other
}

fn indication_condition(
    side: Side,
    r: Record,
    peer: u64,
    s: u64,
    qos: Qos,
    version: u64,
    a: UserData,
) -> u64
    ensures { result ≡ indication_condition side r peer s qos version a }
{
    if !qos.fits() {
        return codes::WRONG_QUALITY;
    }
    if differs(r.edition, s, r.policy) {
        return codes::WRONG_SECURITY;
    }
    pdu_first(false, a, start_condition(side, r, peer, version, a))
}

fn confirmation_condition(r: Record, res: u64, source: u64, s: u64, a: UserData) -> u64
    ensures { result ≡ confirmation_condition r res source s a }
{
    if turns_away(res, source) {
        return codes::TURNED_AWAY;
    }
    if differs(r.edition, s, r.request) {
        return codes::WRONG_SECURITY;
    }
    let may = !awaits_response(r.control) && r.edition.spares();
    answer_condition(may, res == ACCEPTED, a)
}

fn service_condition(side: Side, r: Record, p: ServicePrimitive, a: UserData) -> u64
    ensures { result ≡ service_condition side r p a }
{
    match p {
        ServicePrimitive::DStartIndication(x, s, q, v) => indication_condition(
            side, r, x, s, q, v, a,
        ),
        ServicePrimitive::DStartConfirmation(x, o, s, _) => confirmation_condition(r, x, o, s, a),
        ServicePrimitive::DDataIndication => send_condition(false, a),
        ServicePrimitive::DEndIndication | ServicePrimitive::DEndConfirmation(_) => {
            send_condition(r.edition.spares(), a)
        }
        ServicePrimitive::DAbortIndication(o) => abort_condition(o, a),
        ServicePrimitive::DPAbortIndication => codes::PLAIN,
    }
}

pub fn condition_of(side: Side, r: Record, e: Event) -> u64
    ensures { result ≡ condition_of side r e }
{
    match e {
        Event::User(u) => user_condition(r, u),
        Event::Service(p, a) => service_condition(side, r, p, a),
        Event::TimerExpires if !r.timer => codes::TIMER_STOPPED,
        _ => codes::PLAIN,
    }
}

// Of an event that brings none but its PDU.
const NONE: Parameters = Parameters {
    class: 0,
    security: 0,
    result: 0,
    job: 0,
    reason: 0,
    version: 0,
    pdu: UserData::Absent,
};

// The security value that a D-START carries.
fn carried(r: Record, s: u64) -> u64
    ensures { result ≡ carried r s }
{
    if r.edition.secures() {
        s
    } else {
        Record::NO_SECURITY
    }
}

// The PDU of a response or an end.
fn sent_pdu(r: Record, holds: bool) -> UserData
    ensures { result ≡ unless_spared (spares r.edition) holds }
{
    if r.edition.spares() && !holds {
        UserData::Absent
    } else {
        UserData::Send
    }
}

fn user_parameters(r: Record, u: UserPrimitive) -> Parameters
    ensures { result ≡ user_parameters r u }
{
    match u {
        UserPrimitive::StartServiceRequest(_, class, s) => Parameters {
            class,
            security: carried(r, s),
            ..NONE
        },
        UserPrimitive::StartServiceResponse(_, x, holds) => Parameters {
            security: carried(r, r.policy),
            result: x,
            pdu: sent_pdu(r, holds),
            ..NONE
        },
        UserPrimitive::MessageServiceRequest(_, job) => Parameters {
            job,
            pdu: UserData::Send,
            ..NONE
        },
        UserPrimitive::EndServiceRequest(_, holds) => Parameters {
            pdu: sent_pdu(r, holds),
            ..NONE
        },
        UserPrimitive::EndServiceResponse(_, x, holds) => Parameters {
            result: x,
            pdu: sent_pdu(r, holds),
            ..NONE
        },
        UserPrimitive::UserAbortServiceRequest(given, x) => Parameters {
            reason: if given { x } else { UNDEFINED },
            ..NONE
        },
    }
}

fn service_parameters(r: Record, p: ServicePrimitive, a: UserData) -> Parameters
    ensures { result ≡ service_parameters r p a }
{
    let none = Parameters { pdu: a, ..NONE };
    match p {
        ServicePrimitive::DStartIndication(_, s, qos, version) => Parameters {
            class: qos.routing,
            security: carried(r, s),
            version,
            ..none
        },
        ServicePrimitive::DStartConfirmation(x, _, security, version) => Parameters {
            security,
            result: x,
            version,
            ..none
        },
        ServicePrimitive::DEndConfirmation(x) => Parameters { result: x, ..none },
        _ => none,
    }
}

pub fn parameters_of(r: Record, e: Event) -> Parameters
    ensures { result ≡ parameters_of r e }
{
    match e {
        Event::User(u) => user_parameters(r, u),
        Event::Forward(class, s) => Parameters {
            class,
            security: carried(r, s),
            ..NONE
        },
        Event::Service(p, a) => service_parameters(r, p, a),
        Event::TimerExpires | Event::UnrecoverableSystemError => NONE,
    }
}
