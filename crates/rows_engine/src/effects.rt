// What the columns of a row say is done.
ghost use Rattle.std.specs.Prelude.{◌≡◌};
ghost use Rattle.rows.specs.Engine.{state_of, state_after, flag_after, next_of, refusal_is, invokes, apdu_of, quality, number_after, if_active, abort_in, indication_of, hands, outcome_of};

use crate::codes;
use control::{Control, State};
use machine::event::{Qos, ServicePrimitive, UserData};
use machine::outcome::{Invoked, Outcome, StepRefusal, Told};
use machine::record::Record;
use rows::{Out, Parameters};

// No DS user version number.
const NO_VERSION: u64 = 0;

fn state_of(x: u64) -> State
    ensures { result ≡ state_of x }
{
    match x {
        codes::IDLE => State::Idle,
        codes::START_REQ => State::StartReq,
        codes::START_IND => State::StartInd,
        codes::DIALOGUE => State::Dialogue,
        codes::END => State::End,
        _ => State::Forward,
    }
}

fn state_after(x: u64, s: State) -> State
    ensures { result ≡ state_after x s }
{
    if x == codes::STAYS { s } else { state_of(x) }
}

fn flag_after(x: u64, b: bool) -> bool
    ensures { result ≡ flag_after x b }
{
    if x == codes::AS_IS {
        b
    } else {
        x == codes::YES
    }
}

fn refusal_is(x: u64) -> Option<StepRefusal>
    ensures { result ≡ refusal_is x }
{
    match x {
        codes::TAKEN => None,
        codes::PROHIBITED => Some(StepRefusal::Prohibited),
        codes::WITHOUT_MESSAGE => Some(StepRefusal::NoMessage),
        _ => Some(StepRefusal::Repeat),
    }
}

fn quality(class: u64) -> Qos
    ensures { result ≡ quality class }
{
    Qos {
        priority: Qos::HIGH_PRIORITY,
        rer: Qos::LOW_ERROR_RATE,
        routing: class,
    }
}

fn invokes(r: Record, g: Parameters, x: u64) -> Option<Invoked>
    ensures { result ≡ invokes r g x }
{
    Some(match x {
        codes::SILENT => return None,
        codes::START_OUT | codes::DSC_START_OUT => {
            Invoked::DStartRequest(quality(g.class), g.security)
        }
        codes::START_ANSWER => Invoked::DStartResponse(g.result, g.security),
        codes::DATA_OUT => Invoked::DDataRequest,
        codes::END_OUT => Invoked::DEndRequest,
        codes::END_ANSWER => Invoked::DEndResponse(g.result),
        codes::ABORT_BY_USER => Invoked::DAbortRequest(ServicePrimitive::USER),
        codes::ABORT_BY_PROVIDER => Invoked::DAbortRequest(ServicePrimitive::PROVIDER),
        codes::FORWARD_OUT => {
            Invoked::DStartForwardRequest(quality(g.class), g.security, r.version)
        }
        codes::FORWARD_ANSWER => Invoked::DStartForwardResponse(g.security, NO_VERSION),
        _ => Invoked::DStartForwardResponse(g.security, r.version),
    })
}

fn apdu_of(g: Parameters, x: u64, why: u64) -> UserData
    ensures { result ≡ apdu_of g x why }
{
    match x {
        codes::SILENT => UserData::Absent,
        codes::START_OUT => UserData::Start(false),
        codes::DSC_START_OUT => UserData::Start(true),
        codes::ABORT_BY_USER => UserData::AbortUser(g.reason),
        codes::ABORT_BY_PROVIDER => UserData::AbortProvider(why),
        codes::FORWARD_OUT => UserData::Forward,
        codes::FORWARD_ANSWER | codes::FORWARD_ANSWER_WITH_VERSION => {
            UserData::ForwardResponse(why)
        }
        _ => g.pdu,
    }
}

fn if_active(r: Record, t: Option<Told>) -> Option<Told>
    ensures { result ≡ if_active r t }
{
    if r.active { t } else { None }
}

fn abort_in(a: UserData) -> Option<Told>
    ensures { result ≡ abort_in a }
{
    match a {
        UserData::AbortUser(reason) => Some(Told::UserAbortIndication(reason)),
        _ => Some(Told::ProviderAbortIndication(a.reason())),
    }
}

fn indication_of(r: Record, g: Parameters, x: u64, why: u64) -> Option<Told>
    ensures { result ≡ indication_of r g x why }
{
    let dsc = r.control.dsc;
    Some(match x {
        codes::UNTOLD => return None,
        codes::START_INDICATION => Told::StartIndication(false, g.class),
        codes::DSC_START_INDICATION => Told::StartIndication(true, g.class),
        codes::START_CONFIRMATION => Told::StartConfirmation(dsc, g.result),
        codes::MESSAGE_INDICATION => Told::MessageIndication,
        codes::END_INDICATION => Told::EndIndication(dsc),
        codes::END_CONFIRMATION => Told::EndConfirmation(dsc, g.result),
        codes::ABORT_OF_PDU => return if_active(r, abort_in(g.pdu)),
        codes::ABORT_FOR => return if_active(r, Some(Told::ProviderAbortIndication(why))),
        codes::FORWARD_INDICATION => Told::ForwardIndication,
        _ => Told::ForwardConfirmation(g.pdu.reason(), g.version),
    })
}

fn hands(x: u64) -> bool
    ensures { result ≡ hands x }
{
    x != codes::UNTOLD && x < codes::ABORT_OF_PDU
}

fn number_after(code: u64, which: u64, new: u64, old: u64) -> u64
    ensures { result ≡ number_after code which new old }
{
    if code == which { new } else { old }
}

fn next_of(r: Record, g: Parameters, o: Out) -> Record
    ensures { result ≡ next_of r g o }
{
    let c = r.control;
    Record {
        control: Control {
            state: state_after(o.next, c.state),
            dsc: flag_after(o.dsc, c.dsc),
        },
        timer: flag_after(o.timer, r.timer),
        active: flag_after(o.user, r.active),
        highest: number_after(o.keeps, codes::JOB, g.job, r.highest),
        request: number_after(o.keeps, codes::SECURITY, g.security, r.request),
        ..r
    }
}

// What is done, of the row that fits.
#[tactic(auto, unfolding(rows::specs::Engine::outcome_of))]
pub fn outcome_of(r: Record, g: Parameters, o: Out) -> Outcome
    ensures { result ≡ outcome_of r g o }
{
    Outcome {
        refusal: refusal_is(o.refusal),
        next: next_of(r, g, o),
        invoked: invokes(r, g, o.sends),
        told: indication_of(r, g, o.tells, o.why),
        apdu: apdu_of(g, o.sends, o.reason),
        delivers: hands(o.tells),
    }
}
