// Dialogue-service primitives: Doc 9705 2.3.5.3.2 to 2.3.5.3.6 and Doc 9880 3.5.3.14, 3.5.3.15 (air),
// Doc 9705 2.3.5.5.2 to 2.3.5.5.6, 2.3.5.5.15 and 2.3.5.5.16 (ground).
ghost use Rattle.std.specs.Prelude.{◌≡◌, true, false};
ghost use Rattle.machine.specs.Record.{with_timer, with_user};
ghost use Rattle.machine.specs.Primitives.{handed, abort_told, instructed, answered, reached};

use crate::calls::reply_of;
use crate::event::{ServicePrimitive, UserData};
use crate::exceptions::{
    COMMUNICATION_SERVICE_ERROR, COMMUNICATION_SERVICE_FAILURE, EXPECTED_PDU_MISSING, INVALID_PDU,
    INVALID_QOS_PARAMETER, NOT_PERMITTED_PDU, PROTOCOL_ERROR, aborts, closes, excepts,
    no_instruction, tell,
};
use crate::faults::{Fault, first_fault};
use crate::forwards::{forward_arrives, forward_confirmed};
use crate::outcome::{Invoked, Outcome, Told};
use crate::record::Record;
use control::{Primitive, Side, after};

// The control goes where the primitive leads; the user is told, with the message data.
#[tactic(auto, unfolding(crate::specs::Primitives::handed))]
fn handed(r: Record, p: Primitive, t: Option<Told>) -> Outcome
    ensures { result ≡ handed r p t }
{
    let n = r.enter(after(r.control, p));
    Outcome::taken(n, None, t, UserData::Absent, true)
}

// The user becomes active.
fn invited(r: Record) -> Record
    ensures { result ≡ with_user r true }
{
    Record { active: true, ..r }
}

// t-start is stopped.
fn confirmed(r: Record) -> Record
    ensures { result ≡ with_timer r false }
{
    Record { timer: false, ..r }
}

// The indication with the reason of the APDU.
fn abort_told(apdu: UserData) -> Option<Told>
    ensures { result ≡ abort_told apdu }
{
    match apdu {
        UserData::AbortUser(reason) => Some(Told::UserAbortIndication(reason)),
        _ => Some(Told::ProviderAbortIndication(apdu.reason())),
    }
}

// A primitive without a fault.
#[tactic(auto, unfolding(crate::specs::Primitives::instructed))]
fn instructed(r: Record, p: ServicePrimitive, apdu: UserData) -> Outcome
    ensures { result ≡ instructed r p apdu }
{
    let dsc = r.control.dsc;
    match p {
        ServicePrimitive::DStartIndication(_, security, qos, version) => {
            if matches!(apdu, UserData::Forward) {
                return forward_arrives(r, security, version);
            }
            let mode = apdu.mode();
            handed(
                invited(r),
                Primitive::DStart(mode),
                Some(Told::StartIndication(mode, qos.routing)),
            )
        }
        ServicePrimitive::DStartConfirmation(result, _, _, version) => {
            if matches!(apdu, UserData::ForwardResponse(_)) {
                return forward_confirmed(r, apdu.reason(), version);
            }
            handed(
                confirmed(r),
                Primitive::DStartCnf(reply_of(result)),
                Some(Told::StartConfirmation(dsc, result)),
            )
        }
        ServicePrimitive::DDataIndication => handed(
            r,
            Primitive::DData,
            Some(Told::MessageIndication),
        ),
        ServicePrimitive::DEndIndication => handed(
            r,
            Primitive::DEnd,
            Some(Told::EndIndication(dsc)),
        ),
        ServicePrimitive::DEndConfirmation(result) => handed(
            r,
            Primitive::DEndCnf(reply_of(result)),
            Some(Told::EndConfirmation(dsc, result)),
        ),
        ServicePrimitive::DAbortIndication(_) => closes(r, tell(r, abort_told(apdu))),
        ServicePrimitive::DPAbortIndication => closes(
            r,
            tell(
                r,
                Some(Told::ProviderAbortIndication(COMMUNICATION_SERVICE_FAILURE)),
            ),
        ),
    }
}

// What is done about the first fault.
#[tactic(auto, unfolding(crate::specs::Primitives::answered))]
fn answered(r: Record, p: ServicePrimitive, apdu: UserData, f: Option<Fault>) -> Outcome
    ensures { result ≡ answered r p apdu f }
{
    match f {
        None => instructed(r, p, apdu),
        Some(Fault::NoInstruction(live)) => no_instruction(r, live),
        Some(Fault::Quality) => aborts(r, INVALID_QOS_PARAMETER, None),
        Some(Fault::TurnedAway) => closes(
            r,
            tell(
                r,
                Some(Told::ProviderAbortIndication(COMMUNICATION_SERVICE_ERROR)),
            ),
        ),
        Some(Fault::Security(live)) => excepts(
            r,
            live,
            COMMUNICATION_SERVICE_FAILURE,
            COMMUNICATION_SERVICE_FAILURE,
        ),
        Some(Fault::Missing) => excepts(r, true, EXPECTED_PDU_MISSING, NOT_PERMITTED_PDU),
        Some(Fault::Invalid(live)) => excepts(r, live, INVALID_PDU, INVALID_PDU),
        Some(Fault::NotPermitted(live)) => excepts(r, live, PROTOCOL_ERROR, PROTOCOL_ERROR),
    }
}

// A primitive of the dialogue service with its user data.
#[tactic(auto, unfolding(crate::specs::Primitives::reached))]
pub(crate) fn reached(side: Side, r: Record, p: ServicePrimitive, apdu: UserData) -> Outcome
    ensures { result ≡ reached side r p apdu }
{
    answered(r, p, apdu, first_fault(side, r, p, apdu))
}
