// The first fault of a dialogue-service primitive: the orders that document 01 gives for several faults in one.
ghost use Rattle.std.specs.Prelude.{◌≡◌};
ghost use Rattle.editions.specs.Editions.{secures};
ghost use Rattle.machine.specs.UserData.{abort_fits};
ghost use Rattle.machine.specs.Faults.{pdu_fault, send_fault, differs, send_allowed, abort_fault, peer_fits, from_centre, start_fits_of, turned_away, indication_fault, response_fault, confirmation_fault, first_fault};

use crate::calls::{ACCEPTED, reply_of};
use crate::event::{Qos, ServicePrimitive, UserData};
use crate::record::Record;
use control::{Primitive, Side, State, awaits_response, expects};
use editions::Edition;

// A flag says whether the dialogue is open still, so that a D-ABORT is sent.
#[derive(Clone, Copy)]
pub enum Fault {
    // An unexpected state, or what else has no instruction.
    NoInstruction(bool),
    // Quality of service.
    Quality,
    // The result or the reject source.
    TurnedAway,
    Security(bool),
    // The PDU is missing, not valid, not permitted.
    Missing,
    Invalid(bool),
    NotPermitted(bool),
}

// Missing, invalid, not permitted; then what is behind them. i, u: is the dialogue open for the last two; may: may there be none.
#[tactic(auto, unfolding(crate::specs::Faults::pdu_fault))]
fn pdu_fault(
    may: bool,
    fits: bool,
    i: bool,
    u: bool,
    apdu: UserData,
    behind: Option<Fault>,
) -> Option<Fault>
    ensures { result ≡ pdu_fault may fits i u apdu behind }
{
    match apdu {
        UserData::Absent if !may => Some(Fault::Missing),
        UserData::Absent => behind,
        UserData::NotValid => Some(Fault::Invalid(i)),
        _ if !fits => Some(Fault::NotPermitted(u)),
        _ => behind,
    }
}

// A primitive whose PDU is to be a send.
#[tactic(auto, unfolding(crate::specs::Faults::send_fault))]
fn send_fault(
    side: Side,
    r: Record,
    p: Primitive,
    may: bool,
    live: bool,
    apdu: UserData,
) -> Option<Fault>
    ensures { result ≡ send_fault side r p may live apdu }
{
    if !expects(side, r.control, p) {
        return Some(Fault::NoInstruction(true));
    }
    pdu_fault(may, matches!(apdu, UserData::Send), live, live, apdu, None)
}

// A security value that is not the one it is compared with, where they are compared.
fn differs(edition: Edition, security: u64, other: u64) -> bool
    ensures { result ≡ differs (secures edition) security other }
{
    edition.secures() && security != other
}

// A D-ABORT or a D-P-ABORT, after which no dialogue exists.
#[tactic(auto, unfolding(crate::specs::Faults::abort_fault))]
fn abort_fault(side: Side, r: Record, p: Primitive, fits: bool) -> Option<Fault>
    ensures { result ≡ abort_fault side r p fits }
{
    if expects(side, r.control, p) && fits {
        None
    } else {
        Some(Fault::NoInstruction(false))
    }
}

// The Calling Peer ID of a start is a facility designation at the air machine; at the ground machine an aircraft address, or a facility
// designation for a forward.
fn peer_fits(side: Side, peer: u64) -> bool
    ensures { result ≡ peer_fits side peer }
{
    side == Side::Ground || peer == ServicePrimitive::FACILITY
}

// What a facility sends to the ground machine is a forward.
fn from_centre(side: Side, peer: u64) -> bool
    ensures { result ≡ from_centre side peer }
{
    side == Side::Ground && peer == ServicePrimitive::FACILITY
}

#[tactic(auto, unfolding(crate::specs::Faults::start_fits_of))]
fn start_fits(side: Side, r: Record, peer: u64, apdu: UserData) -> bool
    ensures { result ≡ start_fits_of side r peer apdu }
{
    match apdu {
        UserData::Forward => from_centre(side, peer),
        UserData::Start(dsc) => {
            !from_centre(side, peer) && expects(side, r.control, Primitive::DStart(dsc))
        }
        _ => false,
    }
}

fn turned_away(res: u64, source: u64) -> bool
    ensures { result ≡ turned_away res source }
{
    res == ServicePrimitive::TRANSIENT || source == ServicePrimitive::DS_PROVIDER
}

// A wrong calling peer comes last, and has no instruction.
#[tactic(auto, unfolding(crate::specs::Faults::indication_fault))]
fn indication_fault(
    side: Side,
    r: Record,
    peer: u64,
    security: u64,
    qos: Qos,
    apdu: UserData,
) -> Option<Fault>
    ensures { result ≡ indication_fault side r peer security qos apdu }
{
    if r.control.state != State::Idle {
        return Some(Fault::NoInstruction(true));
    }
    if !qos.fits() {
        return Some(Fault::Quality);
    }
    if differs(r.edition, security, r.policy) {
        return Some(Fault::Security(true));
    }
    let behind = if peer_fits(side, peer) {
        None
    } else {
        Some(Fault::NoInstruction(true))
    };
    pdu_fault(
        false,
        start_fits(side, r, peer, apdu),
        true,
        true,
        apdu,
        behind,
    )
}

// The response to a forward: "rejected (permanent)"; for "accepted" no action is described.
#[tactic(auto, unfolding(crate::specs::Faults::response_fault))]
fn response_fault(r: Record, res: u64, source: u64, security: u64, apdu: UserData) -> Option<Fault>
    ensures { result ≡ response_fault r res source security apdu }
{
    let open = res == ACCEPTED;
    if turned_away(res, source) {
        return Some(Fault::TurnedAway);
    }
    if differs(r.edition, security, r.request) {
        return Some(Fault::Security(open));
    }
    if open {
        return pdu_fault(false, false, true, true, apdu, None);
    }
    pdu_fault(
        false,
        matches!(apdu, UserData::ForwardResponse(_)),
        false,
        true,
        apdu,
        None,
    )
}

// The PDU of a confirmation is a send; where user data may be left out, a start that is accepted has none.
fn send_allowed(may: bool, live: bool, apdu: UserData) -> bool
    ensures { result ≡ send_allowed may live apdu }
{
    !(may && live) && matches!(apdu, UserData::Send)
}

#[tactic(auto, unfolding(crate::specs::Faults::confirmation_fault))]
fn confirmation_fault(
    side: Side,
    r: Record,
    res: u64,
    source: u64,
    security: u64,
    apdu: UserData,
) -> Option<Fault>
    ensures { result ≡ confirmation_fault side r res source security apdu }
{
    let open = res == ACCEPTED;
    if !expects(side, r.control, Primitive::DStartCnf(reply_of(res))) {
        if awaits_response(r.control) {
            return response_fault(r, res, source, security, apdu);
        }
        return Some(Fault::NoInstruction(true));
    }
    if turned_away(res, source) {
        return Some(Fault::TurnedAway);
    }
    if differs(r.edition, security, r.request) {
        return Some(Fault::Security(open));
    }
    let spared = r.edition.spares();
    let send = send_allowed(spared, open, apdu);
    pdu_fault(spared, send, open, true, apdu, None)
}

// Does the APDU fit the originator?
fn abort_fits(originator: u64, apdu: UserData) -> bool
    ensures { result ≡ abort_fits originator apdu }
{
    match apdu {
        UserData::AbortUser(_) => originator == ServicePrimitive::USER,
        UserData::AbortProvider(_) => originator == ServicePrimitive::PROVIDER,
        _ => false,
    }
}

#[tactic(auto, unfolding(crate::specs::Faults::first_fault))]
pub(crate) fn first_fault(
    side: Side,
    r: Record,
    p: ServicePrimitive,
    apdu: UserData,
) -> Option<Fault>
    ensures { result ≡ first_fault side r p apdu }
{
    let edition = r.edition;
    match p {
        ServicePrimitive::DStartIndication(peer, security, qos, _) => indication_fault(
            side, r, peer, security, qos, apdu,
        ),
        ServicePrimitive::DStartConfirmation(result, source, security, _) => confirmation_fault(
            side, r, result, source, security, apdu,
        ),
        ServicePrimitive::DDataIndication => send_fault(
            side,
            r,
            Primitive::DData,
            false,
            true,
            apdu,
        ),
        ServicePrimitive::DEndIndication => send_fault(
            side,
            r,
            Primitive::DEnd,
            edition.spares(),
            true,
            apdu,
        ),
        ServicePrimitive::DEndConfirmation(result) => send_fault(
            side,
            r,
            Primitive::DEndCnf(reply_of(result)),
            edition.spares(),
            result != ACCEPTED,
            apdu,
        ),
        ServicePrimitive::DAbortIndication(originator) => abort_fault(
            side,
            r,
            Primitive::DAbort,
            abort_fits(originator, apdu),
        ),
        ServicePrimitive::DPAbortIndication => abort_fault(side, r, Primitive::DPAbort, true),
    }
}
