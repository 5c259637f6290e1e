// What a call of the user and a primitive that is handed over do to what a record holds: the machine on which the theorem of the duties runs (crates pair and
// duties), as functions. The program replay makes the moves of a recorded day with them (docs/HOST.md, "A recorded day").
#![tactic(auto)]

ghost use Rattle.std.specs.Prelude.{◌≡◌};
ghost use Rattle.moves.specs.Machine.{is_message, is_start, is_abort, is_opening, is_data, may_do, moved_by, called_of, met_by, received_of};

use control::{Call, Control, Primitive, Side, State};

// What a record holds: state and DSC, the number of its dialogue, the highest job that it took.
#[derive(Clone, Copy)]
pub struct Held {
    pub control: Control,
    pub number: u64,
    pub highest: u64,
}

// What an event that is not refused does: it leaves a record, and nothing else; or hands out a message; or sends the call's primitive; or a D-ABORT.
#[derive(Drop)]
pub enum Done {
    Quiet(Held),
    Shows(Held),
    Sends(Held),
    Aborts(Held),
}

// ---- calls

fn is_message(call: Call) -> bool
    ensures { result ≡ is_message call }
{
    matches!(call, Call::MessageRequest)
}

fn is_start(call: Call) -> bool
    ensures { result ≡ is_start call }
{
    matches!(call, Call::StartRequest(_))
}

// Does it send D-ABORT?
fn is_abort(call: Call) -> bool
    ensures { result ≡ is_abort call }
{
    matches!(
        call,
        Call::UserAbort | Call::TimerExpiry | Call::SystemError
    )
}

// Is the call taken? A message request needs a job above the highest, a start a number above the record's.
fn may_do(side: Side, r: Held, call: Call, number: u64, job: u64) -> bool
    ensures { result ≡ may_do side r call number job }
{
    let taken = control::takes(side, r.control, call);
    if is_message(call) {
        return taken && r.highest < job;
    }
    if is_start(call) {
        return taken && r.number < number;
    }
    taken
}

fn moved(r: Held, call: Call, number: u64, job: u64) -> Held
    ensures { result ≡ moved_by r call number job }
{
    Held {
        control: control::goes(r.control, call),
        number: if is_start(call) { number } else { r.number },
        highest: if is_message(call) { job } else { r.highest },
    }
}

// A call of the user, or an expiry or a system error; number: of a start; job: of a message request.
pub fn called(side: Side, r: Held, call: Call, number: u64, job: u64) -> Option<Done>
    ensures { result ≡ called_of side r call number job }
{
    if !may_do(side, r, call, number, job) {
        return None;
    }
    let next = moved(r, call, number, job);
    Some(if is_abort(call) {
        Done::Aborts(next)
    } else {
        Done::Sends(next)
    })
}

// ---- primitives

pub fn is_opening(p: Primitive) -> bool
    ensures { result ≡ is_opening p }
{
    matches!(p, Primitive::DStart(_))
}

fn is_data(p: Primitive) -> bool
    ensures { result ≡ is_data p }
{
    matches!(p, Primitive::DData)
}

// What is not expected closes: quietly at an IDLE end, where it is no start, else with a D-ABORT.
#[tactic(auto, unfolding(crate::specs::Machine::met_by))]
fn met(side: Side, r: Held, p: Primitive) -> Done
    ensures { result ≡ met_by side r p }
{
    if control::expects(side, r.control, p) {
        let next = Held {
            control: control::after(r.control, p),
            ..r
        };
        return if is_data(p) {
            Done::Shows(next)
        } else {
            Done::Quiet(next)
        };
    }
    let closed = Held {
        control: Control::CLOSED,
        ..r
    };
    if r.control.state == State::Idle && !is_opening(p) {
        Done::Quiet(closed)
    } else {
        Done::Aborts(closed)
    }
}

// A primitive with its number. A start is refused unless its number is above the record's, which then holds it; another unless it has the record's.
pub fn received(side: Side, r: Held, p: Primitive, number: u64) -> Option<Done>
    ensures { result ≡ received_of side r p number }
{
    if is_opening(p) {
        if r.number < number {
            return Some(met(side, Held { number, ..r }, p));
        }
        return None;
    }
    if number == r.number {
        return Some(met(side, r, p));
    }
    None
}
