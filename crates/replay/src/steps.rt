// One move of a host, beside the model. `here` is the end whose host makes it. An error is the rule that the move breaks; without one the pages hold what the
// model holds after it.
ghost use Rattle.std.specs.Prelude.{◌≡◌, is_ok};
ghost use Rattle.replay.specs.Rules.{number_of};
ghost use Rattle.tables.specs.Tables.{left};
ghost use Rattle.tables.specs.Steps.{one, two, all, is_up_of, is_down, ready_rule, replied, kind_sent, primitive_of, aborted, sent, made_call, start_told, started_by, reported, turned_to, turned_back, taken_job, taken, refused_job, acknowledged, published, is_kind, is_job, first_rule, quieted, showed, is_deaf, meeting, fate_of, heard, heard_end, shown_to, departed, released_by, gave_up, power_failed, cut_off_of, closed_in, lost, marked_alive, rejoined, carrier_failed, record_rule, quiet_rule};

use crate::page::{
    Fate, Place, decide, entry, get, held, hold, is_broken, is_decided, is_idle, is_noted,
    mark_broken, mark_line, note, open_job, put, put_on_line, remove, start_at, tell, trim,
};
use crate::rules::{Full, Rule};
use control::{Call, Control, Primitive, Reply, Side};
use moves::{Done, Held};

fn is_up(p: &[u64]) -> bool
    ensures { result ≡ is_up_of p.now }
{
    get(p, Place::POWER) == 0
}

fn is_down(p: &[u64]) -> bool
    ensures { result ≡ is_down p.now }
{
    get(p, Place::POWER) == 2
}

// May the next call be made?
#[tactic(auto, unfolding(tables::specs::Steps::ready_rule))]
pub(crate) fn ready(p: &[u64]) -> Result<(), Rule>
    ensures { number_of result ≡ ready_rule p.now }
{
    if !is_up(p) {
        return Err(Rule::Restart);
    }
    if get(p, Place::WAITING) != 0 {
        return Err(Rule::Shown);
    }
    Ok(())
}

// ---- entries

// The kind of the primitive that a call sends.
fn kind_sent(call: Call) -> u64
    ensures { result ≡ kind_sent call }
{
    match call {
        Call::StartRequest(dsc) => u64::from(dsc),
        Call::StartResponse(_, reply) => answer(reply, 2, 3),
        Call::MessageRequest => 4,
        Call::EndRequest(_) => 5,
        Call::EndResponse(_, reply) => answer(reply, 6, 7),
        Call::UserAbort | Call::TimerExpiry | Call::SystemError => 8,
    }
}

fn answer(reply: Reply, accepted: u64, rejected: u64) -> u64
    ensures { result ≡ replied reply accepted rejected }
{
    match reply {
        Reply::Accepted => accepted,
        Reply::Rejected => rejected,
    }
}

fn primitive_of(kind: u64) -> Primitive
    ensures { result ≡ primitive_of kind }
{
    match kind {
        0 => Primitive::DStart(false),
        1 => Primitive::DStart(true),
        2 => Primitive::DStartCnf(Reply::Accepted),
        3 => Primitive::DStartCnf(Reply::Rejected),
        4 => Primitive::DData,
        5 => Primitive::DEnd,
        6 => Primitive::DEndCnf(Reply::Accepted),
        7 => Primitive::DEndCnf(Reply::Rejected),
        _ => Primitive::DAbort,
    }
}

// ---- calls

// A D-ABORT goes on the line, and `left` of the entries before it in this dialogue stay. The dialogue is broken, and so are its jobs.
#[tactic(auto, using(crate::proofs::Breaks::broken), unfolding(tables::specs::Steps::aborted))]
fn abort(here: &mut [u64], broken: &mut [u64], next: Held, left: u64) -> Result<(), Rule>
    ensures { two (number_of result) here.new broken.new ≡ aborted here.old broken.old next left }
{
    hold(here, next);
    trim(here, next.number, left);
    put_on_line(here, 8, next.number, 0)?;
    mark_broken(broken, next.number)?;
    Ok(tell(here, Fate::BROKEN)?)
}

#[tactic(auto, using(crate::proofs::Breaks::broken), unfolding(tables::specs::Steps::sent))]
fn send(here: &mut [u64], call: Call, next: Held, job: u64) -> Result<(), Rule>
    ensures { one (number_of result) here.new ≡ sent here.old call next job }
{
    hold(here, next);
    Ok(put_on_line(here, kind_sent(call), next.number, job)?)
}

// A call of the user that is no start and no message, an expiry, or a system error.
#[tactic(auto, using(crate::proofs::Breaks::broken), unfolding(tables::specs::Steps::made_call, tables::specs::Steps::call_done))]
pub(crate) fn make_call(
    here: &mut [u64],
    broken: &mut [u64],
    side: Side,
    call: Call,
    left: u64,
) -> Result<(), Rule>
    ensures { two (number_of result) here.new broken.new ≡ made_call here.old broken.old side call left }
{
    ready(here)?;
    match moves::called(side, held(here), call, 0, 0) {
        Some(Done::Sends(next)) => send(here, call, next, 0),
        Some(Done::Aborts(next)) => abort(here, broken, next, left),
        _ => Err(Rule::Card),
    }
}

// What is open of an older dialogue is broken.
#[tactic(auto, using(crate::proofs::Breaks::broken), unfolding(tables::specs::Steps::start_told))]
fn start_with(here: &mut [u64], dsc: bool, next: Held) -> Result<(), Rule>
    ensures { one (number_of result) here.new ≡ start_told here.old dsc next }
{
    tell(here, Fate::BROKEN)?;
    send(here, Call::StartRequest(dsc), next, 0)
}

// All starts come from one end, and both ends are IDLE.
#[tactic(auto, using(crate::proofs::Breaks::broken), unfolding(tables::specs::Steps::started_by, tables::specs::Steps::start_done))]
pub(crate) fn start(
    here: &mut [u64],
    there: &[u64],
    side: Side,
    may: bool,
    dsc: bool,
    number: u64,
) -> Result<(), Rule>
    ensures { one (number_of result) here.new ≡ started_by here.old there.now side may dsc number }
{
    ready(here)?;
    if !may {
        return Err(Rule::Number);
    }
    if !is_idle(there) {
        return Err(Rule::Restart);
    }
    let r = held(here);
    if number <= r.number {
        return Err(Rule::Number);
    }
    match moves::called(side, r, Call::StartRequest(dsc), number, 0) {
        Some(Done::Sends(next)) => start_with(here, dsc, next),
        _ => Err(Rule::Card),
    }
}

// A system error at an IDLE end, or at one without the carrier, does nothing.
#[tactic(auto, unfolding(tables::specs::Steps::reported))]
pub(crate) fn error(here: &mut [u64], broken: &mut [u64], side: Side, left: u64) -> Result<(), Rule>
    ensures { two (number_of result) here.new broken.new ≡ reported here.old broken.old side left }
{
    if is_down(here) {
        return Err(Rule::Restart);
    }
    if is_idle(here) || !is_up(here) {
        return Ok(());
    }
    make_call(here, broken, side, Call::SystemError, left)
}

// The start is gone, and the open jobs are broken.
#[tactic(auto, using(crate::proofs::Breaks::broken), unfolding(tables::specs::Steps::turned_to))]
fn turn_to(here: &mut [u64], at: u64, next: Held) -> Result<(), Rule>
    ensures { one (number_of result) here.new ≡ turned_to here.old at next }
{
    remove(here, at);
    hold(here, next);
    Ok(tell(here, Fate::BROKEN)?)
}

// The carrier removes the start and turns it away.
#[tactic(auto, using(crate::proofs::Breaks::broken), unfolding(tables::specs::Steps::turned_back, tables::specs::Steps::turn_done))]
pub(crate) fn turn_back(here: &mut [u64], side: Side) -> Result<(), Rule>
    ensures { one (number_of result) here.new ≡ turned_back here.old side }
{
    ready(here)?;
    let r = held(here);
    let at = start_at(here, r.number);
    if get(here, Place::STATE) != 1 || get(here, Place::ENTRIES) <= at {
        return Err(Rule::Carrier);
    }
    match moves::received(side, r, Primitive::DTurnedAway, r.number) {
        Some(Done::Quiet(next)) => turn_to(here, at, next),
        _ => Err(Rule::Card),
    }
}

// ---- jobs

#[tactic(auto, using(crate::proofs::Breaks::broken), unfolding(tables::specs::Steps::taken_job))]
fn take_job(here: &mut [u64], next: Held, job: u64) -> Result<(), Rule>
    ensures { one (number_of result) here.new ≡ taken_job here.old next job }
{
    decide(here, job)?;
    open_job(here, job)?;
    send(here, Call::MessageRequest, next, job)
}

#[tactic(auto, using(crate::proofs::Breaks::broken), unfolding(tables::specs::Steps::taken, tables::specs::Steps::take_done_of))]
pub(crate) fn take(here: &mut [u64], side: Side, job: u64) -> Result<(), Rule>
    ensures { one (number_of result) here.new ≡ taken here.old side job }
{
    ready(here)?;
    if is_decided(here, job) {
        return Err(Rule::LookUp);
    }
    match moves::called(side, held(here), Call::MessageRequest, 0, job) {
        Some(Done::Sends(next)) => take_job(here, next, job),
        _ => Err(Rule::Card),
    }
}

#[tactic(auto, using(crate::proofs::Breaks::broken), unfolding(tables::specs::Steps::refused_job))]
pub(crate) fn refuse(here: &mut [u64], job: u64) -> Result<(), Rule>
    ensures { one (number_of result) here.new ≡ refused_job here.old job }
{
    if is_down(here) {
        return Err(Rule::Restart);
    }
    if is_decided(here, job) {
        return Err(Rule::LookUp);
    }
    decide(here, job)?;
    Ok(note(here, job, Fate::REFUSED)?)
}

#[tactic(auto, unfolding(tables::specs::Steps::acknowledged))]
pub(crate) fn acknowledge(here: &[u64], job: u64) -> Result<(), Rule>
    ensures { number_of result ≡ acknowledged here.now job }
{
    if is_down(here) {
        return Err(Rule::Restart);
    }
    if is_decided(here, job) {
        return Ok(());
    }
    Err(Rule::Kept)
}

#[tactic(auto, unfolding(tables::specs::Steps::published))]
pub(crate) fn publish(here: &[u64], number: u64, job: u64, fate: u64) -> Result<(), Rule>
    ensures { number_of result ≡ published here.now number job fate }
{
    if is_down(here) {
        return Err(Rule::Restart);
    }
    if is_noted(here, number, job, fate) {
        return Ok(());
    }
    Err(Rule::Fate)
}

// ---- a primitive

// Of a start either kind is meant by 0.
fn is_kind(first: u64, kind: u64) -> bool
    ensures { result ≡ is_kind first kind }
{
    first == kind || kind == 0 && first == 1
}

fn is_job(there: &[u64], kind: u64, job: u64) -> bool
    ensures { result ≡ is_job there.now kind job }
{
    kind != 4 || entry(there, 0, 2) == job
}

// The first on the other end's line that has left is this one.
#[tactic(auto, unfolding(tables::specs::Steps::first_rule))]
fn check_first(there: &[u64], kind: u64, number: u64, job: u64) -> Result<(), Rule>
    ensures { number_of result ≡ first_rule there.now kind number job }
{
    if get(there, Place::ENTRIES) <= get(there, Place::UNSENT) {
        return Err(Rule::Once);
    }
    if !is_kind(entry(there, 0, 0), kind) {
        return Err(Rule::Once);
    }
    if entry(there, 0, 1) != number {
        return Err(Rule::Number);
    }
    if !is_job(there, kind, job) {
        return Err(Rule::Once);
    }
    Ok(())
}

#[tactic(auto, using(crate::proofs::Breaks::broken), unfolding(tables::specs::Steps::quieted))]
fn quiet(here: &mut [u64], next: Held, fate: u64) -> Result<(), Rule>
    ensures { one (number_of result) here.new ≡ quieted here.old next fate }
{
    hold(here, next);
    if fate == 0 {
        return Ok(());
    }
    Ok(tell(here, fate)?)
}

#[tactic(auto, unfolding(tables::specs::Steps::showed))]
fn show(here: &mut [u64], next: Held) -> Result<(), Rule>
    ensures { one (number_of result) here.new ≡ showed here.old next }
{
    hold(here, next);
    put(here, Place::WAITING, 1);
    Ok(())
}

// An IDLE end takes no notice of anything but a start.
fn is_deaf(here: &[u64], p: Primitive) -> bool
    ensures { result ≡ is_deaf here.now p }
{
    is_idle(here) && !moves::is_opening(p)
}

// It is handed over; fate: of the open jobs, where it says it.
#[tactic(auto, unfolding(tables::specs::Steps::meeting, tables::specs::Steps::met_done))]
fn meet(
    here: &mut [u64],
    broken: &mut [u64],
    side: Side,
    p: Primitive,
    number: u64,
    left: u64,
    fate: u64,
) -> Result<(), Rule>
    ensures { two (number_of result) here.new broken.new ≡ meeting here.old broken.old side p number left fate }
{
    let r = held(here);
    if is_deaf(here, p) {
        return quiet(here, r, fate);
    }
    match moves::received(side, r, p, number) {
        None => Ok(()),
        Some(Done::Quiet(next)) => quiet(here, next, fate),
        Some(Done::Shows(next)) => show(here, next),
        Some(Done::Aborts(next)) => abort(here, broken, next, left),
        _ => Err(Rule::Card),
    }
}

// What the arrival of a primitive says of the open jobs: a D-ABORT of this dialogue, and the start of another, that they are broken.
fn fate_of(kind: u64, number: u64, holds: u64) -> u64
    ensures { result ≡ fate_of kind number holds }
{
    if kind == 8 && number == holds || kind < 2 && holds < number {
        return Fate::BROKEN;
    }
    0
}

#[tactic(auto, using(crate::proofs::Breaks::broken), unfolding(tables::specs::Steps::heard))]
pub(crate) fn hear(
    here: &mut [u64],
    there: &mut [u64],
    broken: &mut [u64],
    side: Side,
    kind: u64,
    number: u64,
    left: u64,
    job: u64,
) -> Result<(), Rule>
    ensures { all (number_of result) here.new there.new broken.new ≡ heard here.old there.old broken.old side kind number left job }
{
    ready(here)?;
    check_first(there, kind, number, job)?;
    let first = entry(there, 0, 0);
    let fate = fate_of(first, number, get(here, Place::NUMBER));
    remove(there, 0);
    meet(here, broken, side, primitive_of(first), number, left, fate)
}

// The answer "accepted" to D-END, of this dialogue, comes to the end that waits for it: the open jobs have ended.
#[tactic(auto, using(crate::proofs::Breaks::broken), unfolding(tables::specs::Steps::heard_end))]
pub(crate) fn hear_end(
    here: &mut [u64],
    there: &mut [u64],
    broken: &mut [u64],
    side: Side,
    number: u64,
) -> Result<(), Rule>
    ensures { all (number_of result) here.new there.new broken.new ≡ heard_end here.old there.old broken.old side number }
{
    ready(here)?;
    check_first(there, 6, number, 0)?;
    let r = held(here);
    let end = Primitive::DEndCnf(Reply::Accepted);
    if number != r.number || !control::expects(side, r.control, end) {
        return Err(Rule::Fate);
    }
    remove(there, 0);
    meet(here, broken, side, end, number, 0, Fate::ENDED)
}

// ---- the host

#[tactic(auto, unfolding(tables::specs::Steps::shown_to))]
pub(crate) fn shown(here: &mut [u64]) -> Result<(), Rule>
    ensures { one (number_of result) here.new ≡ shown_to here.old }
{
    if is_down(here) {
        return Err(Rule::Restart);
    }
    if get(here, Place::WAITING) == 0 {
        return Err(Rule::Kept);
    }
    put(here, Place::WAITING, 0);
    Ok(())
}

#[tactic(auto, unfolding(tables::specs::Steps::departed))]
pub(crate) fn leave(here: &mut [u64]) -> Result<(), Rule>
    ensures { one (number_of result) here.new ≡ departed here.old }
{
    if !is_up(here) {
        return Err(Rule::Restart);
    }
    let n = get(here, Place::UNSENT);
    if n == 0 {
        return Err(Rule::Kept);
    }
    put(here, Place::UNSENT, n - 1);
    Ok(())
}

// The connection was released in order: the open jobs have ended.
#[tactic(auto, using(crate::proofs::Breaks::broken), unfolding(tables::specs::Steps::released_by))]
pub(crate) fn release(here: &mut [u64], there: &[u64], broken: &[u64]) -> Result<(), Rule>
    ensures { one (number_of result) here.new ≡ released_by here.old there.now broken.now }
{
    if !is_up(here) {
        return Err(Rule::Restart);
    }
    let lines_empty = get(here, Place::ENTRIES) == 0 && get(there, Place::ENTRIES) == 0;
    if !lines_empty || !is_idle(here) || !is_idle(there) {
        return Err(Rule::Fate);
    }
    if is_broken(broken, get(here, Place::NUMBER)) {
        return Err(Rule::Fate);
    }
    Ok(tell(here, Fate::ENDED)?)
}

#[tactic(auto, using(crate::proofs::Breaks::broken), unfolding(tables::specs::Steps::gave_up))]
pub(crate) fn give_up(here: &mut [u64]) -> Result<(), Rule>
    ensures { one (number_of result) here.new ≡ gave_up here.old }
{
    if !is_up(here) {
        return Err(Rule::Restart);
    }
    Ok(tell(here, Fate::BROKEN)?)
}

#[tactic(auto, unfolding(tables::specs::Steps::power_failed))]
pub(crate) fn fail_power(here: &mut [u64]) -> Result<(), Rule>
    ensures { one (number_of result) here.new ≡ power_failed here.old }
{
    put(here, Place::POWER, 2);
    put(here, Place::WAITING, 0);
    Ok(())
}

#[tactic(auto, using(crate::proofs::Breaks::broken), unfolding(tables::specs::Steps::cut_off_of))]
pub(crate) fn cut_off(here: &mut [u64]) -> Result<(), Rule>
    ensures { one (number_of result) here.new ≡ cut_off_of here.old }
{
    if get(here, Place::POWER) == 1 {
        return Ok(());
    }
    put(here, Place::POWER, 1);
    put(here, Place::UNSENT, 0);
    Ok(tell(here, Fate::BROKEN)?)
}

#[tactic(auto, unfolding(tables::specs::Steps::closed_in))]
fn close(p: &mut [u64])
    ensures { p.new ≡ closed_in p.old }
{
    if is_idle(p) {
        return;
    }
    let closed = Held {
        control: Control::CLOSED,
        ..held(p)
    };
    hold(p, closed);
}

// One end hears that the carrier failed: its line is empty, it is IDLE, and its jobs are broken.
#[tactic(auto, using(crate::proofs::Breaks::broken), unfolding(tables::specs::Steps::lost))]
fn lose(p: &mut [u64]) -> Result<(), Rule>
    ensures { one (number_of result) p.new ≡ lost p.old }
{
    put(p, Place::ENTRIES, 0);
    put(p, Place::UNSENT, 0);
    close(p);
    Ok(tell(p, Fate::BROKEN)?)
}

// The dialogues that an end is in, or that have an entry on its line, are broken.
#[tactic(auto, using(crate::proofs::Breaks::broken), unfolding(tables::specs::Steps::marked_alive))]
fn mark_alive(broken: &mut [u64], p: &[u64]) -> Result<(), Full>
    ensures { left (is_ok result) broken.new ≡ marked_alive broken.old p.now }
{
    if !is_idle(p) {
        mark_broken(broken, get(p, Place::NUMBER))?;
    }
    mark_line(broken, p)
}

// It is up again, if it has power.
#[tactic(auto, unfolding(tables::specs::Steps::rejoined))]
fn rejoin(p: &mut [u64])
    ensures { p.new ≡ rejoined p.old }
{
    if get(p, Place::POWER) == 1 {
        put(p, Place::POWER, 0);
    }
}

#[tactic(auto, using(crate::proofs::Breaks::broken), unfolding(tables::specs::Steps::carrier_failed))]
pub(crate) fn fail_carrier(
    here: &mut [u64],
    there: &mut [u64],
    broken: &mut [u64],
) -> Result<(), Rule>
    ensures { all (number_of result) here.new there.new broken.new ≡ carrier_failed here.old there.old broken.old }
{
    mark_alive(broken, here)?;
    mark_alive(broken, there)?;
    put(here, Place::POWER, 0);
    rejoin(there);
    lose(here)?;
    lose(there)
}

// ---- what a host shows

#[tactic(auto, unfolding(tables::specs::Steps::record_rule))]
pub(crate) fn show_record(
    here: &[u64],
    state: u64,
    dsc: u64,
    number: u64,
    highest: u64,
) -> Result<(), Rule>
    ensures { number_of result ≡ record_rule here.now state dsc number highest }
{
    if !is_up(here) {
        return Ok(());
    }
    let same = get(here, Place::STATE) == state
        && get(here, Place::DSC) == dsc
        && get(here, Place::NUMBER) == number
        && get(here, Place::HIGHEST) == highest;
    if same { Ok(()) } else { Err(Rule::Fresh) }
}

#[tactic(auto, unfolding(tables::specs::Steps::quiet_rule))]
pub(crate) fn show_quiet(here: &[u64], there: &[u64]) -> Result<(), Rule>
    ensures { number_of result ≡ quiet_rule here.now there.now }
{
    if get(here, Place::ENTRIES) == 0 && get(there, Place::ENTRIES) == 0 {
        Ok(())
    } else {
        Err(Rule::Carrier)
    }
}
