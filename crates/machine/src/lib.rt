// The CPDLC air machine and ground machine: Doc 9880 3.5.3 and 3.5.4, Doc 9705 2.3.5, as document 01 settles them.
// Steps over a record by value. An APDU is a value here, and no bytes are handled.
#![tactic(auto)]

mod calls;
pub mod event;
mod exceptions;
mod faults;
mod forwards;
pub mod outcome;
mod primitives;
pub mod record;

ghost use Rattle.std.specs.Prelude.{◌≡◌};
ghost use Rattle.machine.specs.Step.{permitted, message_refusal, refusal_fitting, acts, step_fitting, step};

use calls::{call_of, called, unsent};
use control::{Side, takes, takes_forward};
use event::{Event, ServicePrimitive, UserData, UserPrimitive};
use exceptions::{system_error, timer_expires};
use forwards::forward_request;
use outcome::{Outcome, StepRefusal};
use primitives::reached;
use record::Record;

// Has a user primitive an action here? An expiry asks whether the timer runs; a dialogue-service primitive and a system error are never
// prohibited.
#[tactic(auto, unfolding(crate::specs::Step::permitted))]
fn permitted(side: Side, r: Record, e: Event) -> bool
    ensures { result ≡ permitted side r e }
{
    match e {
        Event::User(u) => takes(side, r.control, call_of(u)),
        Event::Forward(_, _) => takes_forward(side, r.control),
        Event::TimerExpires => r.timer,
        Event::Service(_, _) | Event::UnrecoverableSystemError => true,
    }
}

#[tactic(auto, unfolding(crate::specs::Step::message_refusal))]
fn message_refusal(r: Record, e: Event) -> Option<StepRefusal>
    ensures { result ≡ message_refusal r e }
{
    match e {
        Event::User(u) => unsent(r.highest, u),
        _ => None,
    }
}

// The order of refusals, of an event whose codes are of their types.
#[tactic(auto, unfolding(crate::specs::Step::refusal_fitting))]
fn refusal(side: Side, r: Record, e: Event) -> Option<StepRefusal>
    ensures { result ≡ refusal_fitting side r e }
{
    if !permitted(side, r, e) {
        return Some(StepRefusal::Prohibited);
    }
    message_refusal(r, e)
}

// The clause of an event that is not refused.
#[tactic(auto, unfolding(crate::specs::Step::acts))]
fn acts(side: Side, r: Record, e: Event) -> Outcome
    ensures { result ≡ acts side r e }
{
    match e {
        Event::User(u) => called(r, u),
        Event::Forward(class, security) => forward_request(r, class, security),
        Event::Service(p, apdu) => reached(side, r, p, apdu),
        Event::TimerExpires => timer_expires(r),
        Event::UnrecoverableSystemError => system_error(r),
    }
}

// One event at one machine, where the caller has looked at the codes: crate `numbered` does, before it looks at the dialogue number.
#[tactic(auto, unfolding(crate::specs::Step::step_fitting))]
pub fn step_fitting(side: Side, r: Record, e: Event) -> Outcome
    ensures { result ≡ step_fitting side r e }
{
    match refusal(side, r, e) {
        None => acts(side, r, e),
        Some(why) => Outcome::refused(Some(why), r),
    }
}

// The same of one kind of event each, so that a caller who knows the kind pays for no other.
#[tactic(auto, unfolding(crate::specs::Step::step_fitting, crate::specs::Step::refusal_fitting, crate::specs::Step::permitted, crate::specs::Step::message_refusal, crate::specs::Step::acts))]
pub fn user_fitting(side: Side, r: Record, u: UserPrimitive) -> Outcome
    ensures { result ≡ step_fitting side r (Event.User u) }
{
    if !takes(side, r.control, call_of(u)) {
        return Outcome::refused(Some(StepRefusal::Prohibited), r);
    }
    match unsent(r.highest, u) {
        None => called(r, u),
        Some(why) => Outcome::refused(Some(why), r),
    }
}

#[tactic(auto, unfolding(crate::specs::Step::step_fitting, crate::specs::Step::refusal_fitting, crate::specs::Step::permitted, crate::specs::Step::message_refusal, crate::specs::Step::acts))]
pub fn forward_fitting(side: Side, r: Record, class: u64, security: u64) -> Outcome
    ensures { result ≡ step_fitting side r (Event.Forward class security) }
{
    if takes_forward(side, r.control) {
        return forward_request(r, class, security);
    }
    Outcome::refused(Some(StepRefusal::Prohibited), r)
}

#[tactic(auto, unfolding(crate::specs::Step::step_fitting, crate::specs::Step::refusal_fitting, crate::specs::Step::permitted, crate::specs::Step::message_refusal, crate::specs::Step::acts))]
pub fn service_fitting(side: Side, r: Record, p: ServicePrimitive, apdu: UserData) -> Outcome
    ensures { result ≡ step_fitting side r (Event.Service p apdu) }
{
    reached(side, r, p, apdu)
}

#[tactic(auto, unfolding(crate::specs::Step::step_fitting, crate::specs::Step::refusal_fitting, crate::specs::Step::permitted, crate::specs::Step::message_refusal, crate::specs::Step::acts))]
pub fn timer_fitting(side: Side, r: Record) -> Outcome
    ensures { result ≡ step_fitting side r Event.TimerExpires }
{
    if r.timer {
        return timer_expires(r);
    }
    Outcome::refused(Some(StepRefusal::Prohibited), r)
}

#[tactic(auto, unfolding(crate::specs::Step::step_fitting, crate::specs::Step::refusal_fitting, crate::specs::Step::permitted, crate::specs::Step::message_refusal, crate::specs::Step::acts))]
pub fn error_fitting(side: Side, r: Record) -> Outcome
    ensures { result ≡ step_fitting side r Event.UnrecoverableSystemError }
{
    system_error(r)
}

// One event at one machine.
#[tactic(auto, unfolding(crate::specs::Step::step, crate::specs::Step::refusal_of, crate::specs::Step::step_fitting, crate::specs::Step::refusal_fitting))]
pub fn step(side: Side, r: Record, e: Event) -> Outcome
    ensures { result ≡ step side r e }
{
    if !e.fits(side, r.edition) {
        return Outcome::refused(Some(StepRefusal::Shape), r);
    }
    step_fitting(side, r, e)
}
