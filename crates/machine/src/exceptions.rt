// Exception handling: Doc 9880 3.5.4 (air), Doc 9705 2.3.5.6 (ground).
ghost use Rattle.std.specs.Prelude.{◌≡◌};
ghost use Rattle.machine.specs.Exceptions.{tell, closes, aborts, excepts, no_instruction, timer_expires, system_error};

use crate::event::{ServicePrimitive, UserData};
use crate::outcome::{Invoked, Outcome, Told};
use crate::record::Record;
use control::{Control, State};

// CPDLCProviderAbortReason, and NOT_PERMITTED_PDU, which is told to the user only.
pub(crate) const TIMER_EXPIRED: u64 = 0;

pub(crate) const UNDEFINED_ERROR: u64 = 1;

pub(crate) const INVALID_PDU: u64 = 2;

pub(crate) const PROTOCOL_ERROR: u64 = 3;

pub(crate) const COMMUNICATION_SERVICE_ERROR: u64 = 4;

pub(crate) const COMMUNICATION_SERVICE_FAILURE: u64 = 5;

pub(crate) const INVALID_QOS_PARAMETER: u64 = 6;

pub(crate) const EXPECTED_PDU_MISSING: u64 = 7;

pub(crate) const NOT_PERMITTED_PDU: u64 = 8;

// Only an active user is told of an abort.
#[tactic(auto, unfolding(crate::specs::Exceptions::tell))]
pub(crate) fn tell(r: Record, t: Option<Told>) -> Option<Told>
    ensures { result ≡ tell r t }
{
    if r.active { t } else { None }
}

// The dialogue closes and nothing is sent.
#[tactic(auto, unfolding(crate::specs::Exceptions::closes))]
pub(crate) fn closes(r: Record, t: Option<Told>) -> Outcome
    ensures { result ≡ closes r t }
{
    let n = r.enter(Control::CLOSED);
    Outcome::taken(n, None, t, UserData::Absent, false)
}

// The dialogue closes with a D-ABORT from the provider.
#[tactic(auto, unfolding(crate::specs::Exceptions::aborts))]
pub(crate) fn aborts(r: Record, reason: u64, t: Option<Told>) -> Outcome
    ensures { result ≡ aborts r reason t }
{
    let n = r.enter(Control::CLOSED);
    Outcome::taken(
        n,
        Some(Invoked::DAbortRequest(ServicePrimitive::PROVIDER)),
        t,
        UserData::AbortProvider(reason),
        false,
    )
}

// If the dialogue is open, abort as provider with the reason; tell an active user the other reason.
#[tactic(auto, unfolding(crate::specs::Exceptions::excepts))]
pub(crate) fn excepts(r: Record, live: bool, reason: u64, told: u64) -> Outcome
    ensures { result ≡ excepts r live reason told }
{
    let t = tell(r, Some(Told::ProviderAbortIndication(told)));
    if live {
        aborts(r, reason, t)
    } else {
        closes(r, t)
    }
}

// A primitive with no instruction; in IDLE it leaves no output.
#[tactic(auto, unfolding(crate::specs::Exceptions::no_instruction))]
pub(crate) fn no_instruction(r: Record, exists: bool) -> Outcome
    ensures { result ≡ no_instruction r exists }
{
    if r.control.state == State::Idle {
        closes(r, None)
    } else {
        excepts(r, exists, PROTOCOL_ERROR, PROTOCOL_ERROR)
    }
}

#[tactic(auto, unfolding(crate::specs::Exceptions::timer_expires))]
pub(crate) fn timer_expires(r: Record) -> Outcome
    ensures { result ≡ timer_expires r }
{
    excepts(r, true, TIMER_EXPIRED, TIMER_EXPIRED)
}

// In IDLE it gives no output.
#[tactic(auto, unfolding(crate::specs::Exceptions::system_error))]
pub(crate) fn system_error(r: Record) -> Outcome
    ensures { result ≡ system_error r }
{
    if r.control.state == State::Idle {
        closes(r, None)
    } else {
        excepts(r, true, UNDEFINED_ERROR, UNDEFINED_ERROR)
    }
}
