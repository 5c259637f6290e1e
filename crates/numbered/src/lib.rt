// The machine's step with a dialogue number (document 02, E9): the check, the step as it is, and the number that the record holds
// afterwards.
#![tactic(auto)]

ghost use Rattle.std.specs.Prelude.{◌≡◌};
ghost use Rattle.numbered.specs.Numbers.{user_starts, service_starts, is_start, is_service, is_stale, held_after, looked_over, numbered_step};

use control::Side;
use machine::event::{Event, ServicePrimitive, UserPrimitive};
use machine::outcome::{Outcome, StepRefusal};
use machine::record::Record;

#[tactic(auto, unfolding(crate::specs::Numbers::user_starts))]
fn user_starts(u: UserPrimitive) -> bool
    ensures { result ≡ user_starts u }
{
    matches!(u, UserPrimitive::StartServiceRequest(_, _, _))
}

#[tactic(auto, unfolding(crate::specs::Numbers::service_starts))]
fn service_starts(p: ServicePrimitive) -> bool
    ensures { result ≡ service_starts p }
{
    matches!(p, ServicePrimitive::DStartIndication(_, _, _, _))
}

// Is it a user start, of a dialogue or a forward, or a D-START indication?
#[tactic(auto, unfolding(crate::specs::Numbers::is_start))]
fn is_start(e: Event) -> bool
    ensures { result ≡ is_start e }
{
    match e {
        Event::User(u) => user_starts(u),
        Event::Forward(_, _) => true,
        Event::Service(p, _) => service_starts(p),
        Event::TimerExpires | Event::UnrecoverableSystemError => false,
    }
}

#[tactic(auto, unfolding(crate::specs::Numbers::is_service))]
fn is_service(e: Event) -> bool
    ensures { result ≡ is_service e }
{
    matches!(e, Event::Service(_, _))
}

// A start's number is above the record's; that of another primitive of the dialogue service is the record's.
#[tactic(auto, unfolding(crate::specs::Numbers::is_stale))]
pub fn is_stale(held: u64, e: Event, brought: u64) -> bool
    ensures { result ≡ is_stale held e brought }
{
    if is_start(e) {
        brought <= held
    } else {
        is_service(e) && brought != held
    }
}

// The number that the record holds after an event that is not refused.
#[tactic(auto, unfolding(crate::specs::Numbers::held_after))]
pub fn held_after(held: u64, e: Event, brought: u64) -> u64
    ensures { result ≡ held_after held e brought }
{
    if is_start(e) { brought } else { held }
}

// The first two of the order of refusals: SHAPE, then STALE.
#[inline(always)]
fn looked_over(side: Side, r: Record, held: u64, e: Event, brought: u64) -> Option<StepRefusal>
    ensures { result ≡ looked_over side r held e brought }
{
    if !e.fits(side, r.edition) {
        Some(StepRefusal::Shape)
    } else if is_stale(held, e, brought) {
        Some(StepRefusal::Stale)
    } else {
        None
    }
}

// One event at one machine whose record holds a number.
#[tactic(auto, using(crate::proofs::Laws::looked_refused, crate::proofs::Laws::looked_fitting))]
pub fn step(side: Side, r: Record, held: u64, e: Event, brought: u64) -> Outcome
    ensures { result ≡ numbered_step side r held e brought }
{
    match looked_over(side, r, held, e, brought) {
        Some(why) => Outcome::refused(Some(why), r),
        None => machine::step_fitting(side, r, e),
    }
}

// A user primitive. A start brings a number; another brings none.
#[tactic(auto, using(crate::proofs::Laws::looked_refused, crate::proofs::Laws::looked_fitting))]
pub fn user_step(side: Side, r: Record, held: u64, u: UserPrimitive, brought: u64) -> Outcome
    ensures { result ≡ numbered_step side r held (Event.User u) brought }
{
    match looked_over(side, r, held, Event::User(u), brought) {
        Some(why) => Outcome::refused(Some(why), r),
        None => machine::user_fitting(side, r, u),
    }
}

// A forward request, which is a start.
#[tactic(auto, using(crate::proofs::Laws::looked_refused, crate::proofs::Laws::looked_fitting))]
pub fn forward_step(
    side: Side,
    r: Record,
    held: u64,
    class: u64,
    security: u64,
    brought: u64,
) -> Outcome
    ensures { result ≡ numbered_step side r held (Event.Forward class security) brought }
{
    match looked_over(side, r, held, Event::Forward(class, security), brought) {
        Some(why) => Outcome::refused(Some(why), r),
        None => machine::forward_fitting(side, r, class, security),
    }
}
