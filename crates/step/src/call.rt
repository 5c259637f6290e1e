// The step on bytes.
ghost use Rattle.std.specs.Prelude.{◌≡◌, Ok, true, [], ◌+◌, ◌*◌, ◌≤◌, length};
ghost use Rattle.apdu.specs.Sizes.{buffer_least};
ghost use Rattle.apdu.specs.Pdus.{lent};
ghost use Rattle.apdu.specs.Writing.{done, write_out};
ghost use Rattle.machine.specs.Step.{step_fitting};
ghost use Rattle.packed.specs.Packed.{invoked_number, packed, told_number, version_number};
ghost use Rattle.stored.specs.Stored.{store_at};
ghost use Rattle.step.specs.Call.{answer_number, bits_of_written, called, carries_data, first_takes, forward_call, no_data, passes, pdus_of, service_call, user_call};
ghost use Rattle.step.specs.Handing.{concluded_of, delivered_of, host_event, is_given, is_reply, lead_of, led_run, opened, reply_takes, settled};

use crate::answers::{CallRefusal, answer_number};
use crate::arrived::{Arrival, arrived};
use apdu::{Apdu, Data, Forward};
use control::Side;
use editions::Edition;
use machine::event::{Event, ServicePrimitive, UserData, UserPrimitive};
use machine::outcome::{Outcome, StepRefusal, Told};
use machine::record::Record;
use numbered::{held_after, is_stale};
use packed::{answer, mode};
use pdus::PduType;
use stored::{Stored, load, store};
use words::Unwritten;

// Every bit of what is lent.
const ALL: usize = usize::MAX;

fn pdus_of(s: Side) -> PduType
    ensures { result ≡ pdus_of s }
{
    match s {
        Side::Air => PduType::AircraftPdus,
        Side::Ground => PduType::GroundPdus,
    }
}

// A forward indication hands the forward message on.
fn passes(t: Option<Told>) -> bool
    ensures { result ≡ passes t }
{
    matches!(t, Some(Told::ForwardIndication))
}

// The first buffer takes the APDU of a user primitive.
#[tactic(auto, unfolding(crate::specs::Call::first_takes, codec::specs::Codec::apdu_fits, apdu::specs::Pdus::pdu_in))]
fn put_given(
    edition: Edition,
    first: &mut [u8],
    side: Side,
    a: UserData,
    d: Data,
    ids: &[u8],
    msgs: &[u8],
    checks: &[u8],
) -> Result<usize, Unwritten>
    requires { is_given a ≡ true }
    ensures { done result first.new ≡ first_takes edition side (lent ids.now) (lent msgs.now) (lent checks.now) (carries_data d) a first.old }
{
    let pdu = pdus_of(side);
    match a {
        UserData::Start(m) => codec::put_start(edition, first, pdu, mode(m), d, ids, msgs, checks),
        UserData::Send => codec::put_send(edition, first, pdu, d, ids, msgs, checks),
        UserData::AbortUser(x) => codec::put_abort_user(edition, first, pdu, x),
        _ => Ok(0),
    }
}

// It takes the answer to a primitive of the dialogue service, which is the same in every edition.
#[tactic(auto, unfolding(crate::specs::Call::first_takes, codec::specs::Codec::apdu_fits, codec::specs::Codec::pdu_bits, apdu::specs::Pdus::pdu_in, apdu::specs::Encoding::pdu_bits))]
fn put_reply(first: &mut [u8], side: Side, a: UserData) -> Result<usize, Unwritten>
    requires { is_reply a ≡ true }
    ensures { done result first.new ≡ reply_takes Edition.Protected side a first.old }
{
    let pdu = pdus_of(side);
    match a {
        UserData::AbortProvider(x) => apdu::put_abort_provider(first, pdu, x),
        UserData::ForwardResponse(x) => apdu::put_forward_response(first, pdu, x),
        _ => Ok(0),
    }
}

// Bits that stand in lent bytes, behind lead bits 0.
fn hand(second: &mut [u8], lead: usize, bytes: &[u8], from: usize, count: usize) -> usize
    requires { (lead ≤ 1) × (buffer_least ≤ length second.old) × (from + count ≤ length (lent bytes.now)) × (count + 8 ≤ 8 * buffer_least) }
    ensures { done (Ok result) second.new ≡ write_out true second.old (led_run (lent bytes.now) lead from count) }
{
    let n = bits::put_led(second, ALL, 0, lead, 0, bytes, ALL, from, count).unwrap_or(0);
    bits::pad(second, ALL, n);
    n
}

// The extension bit of message data.
fn lead_of(edition: Edition) -> usize
    ensures { result ≡ lead_of edition }
{
    match edition {
        Edition::Plain => 0,
        Edition::Protected => 1,
    }
}

// The second buffer takes what the user is delivered.
#[tactic(auto, unfolding(crate::specs::Handing::delivered_of))]
fn deliver(edition: Edition, second: &mut [u8], o: Outcome, x: Arrival, bytes: &[u8]) -> usize
    requires { (buffer_least ≤ length second.old) × (x.from + x.count ≤ length (lent bytes.now)) × (x.count + 8 ≤ 8 * buffer_least) }
    ensures { done (Ok result) second.new ≡ delivered_of edition (lent bytes.now) x o second.old }
{
    if passes(o.told) {
        return hand(second, 0, bytes, x.from, x.count);
    }
    if o.delivers {
        return hand(second, lead_of(edition), bytes, x.from, x.count);
    }
    0
}

// The record is kept, with the dialogue number that it holds now, and the answer is made.
#[inline(always)]
fn settle(
    rec: &mut [u8],
    side: Side,
    number: u64,
    o: Outcome,
    sent: Result<usize, Unwritten>,
    given: usize,
) -> u64
    ensures { settled result rec.new ≡ settled (packed (invoked_number o.invoked) (told_number o.told) (bits_of_written sent) given (version_number o.invoked o.told)) (store_at rec.old side o.next number).bytes }
{
    store(rec, side, o.next, number);
    answer(o.invoked, o.told, sent.unwrap_or(0), given)
}

// What stands in front of each call: both buffers have room for what is written, and the bytes are a record. (Inlined, as `settle` is: a record or an
// outcome that is handed on by value is copied else.)
#[tactic(auto, unfolding(crate::specs::Handing::opened))]
#[inline(always)]
fn opened(rec: &[u8], first: &[u8], second: &[u8]) -> Result<Stored, CallRefusal>
    ensures { result ≡ opened rec.now first.now second.now }
{
    if first.len() < Apdu::BUFFER || second.len() < Apdu::BUFFER {
        return Err(CallRefusal::Room);
    }
    load(rec).ok_or(CallRefusal::Step(StepRefusal::Shape))
}

// A user primitive with the message data that the host gives. A start brings a dialogue number; the others bring none.
pub fn user_call(
    rec: &mut [u8],
    first: &mut [u8],
    second: &mut [u8],
    u: UserPrimitive,
    brought: u64,
    ids: &[u8],
    msgs: &[u8],
    checks: &[u8],
    d: Data,
) -> u64
    ensures { called result rec.new first.new second.new ≡ user_call rec.old first.old second.old (Event.User u) brought ids.now msgs.now checks.now d }
{
    answer_number(user_answer(rec, first, second, u, brought, ids, msgs, checks, d))
}

fn user_answer(
    rec: &mut [u8],
    first: &mut [u8],
    second: &mut [u8],
    u: UserPrimitive,
    brought: u64,
    ids: &[u8],
    msgs: &[u8],
    checks: &[u8],
    d: Data,
) -> Result<u64, CallRefusal>
    ensures { called (answer_number result) rec.new first.new second.new ≡ user_call rec.old first.old second.old (Event.User u) brought ids.now msgs.now checks.now d }
{
    let Stored {
        side,
        machine: r,
        number: held,
    } = opened(rec, first, second)?;
    let edition = r.edition;
    if !codec::given_fits(edition, pdus_of(side), d, ids, msgs, checks) {
        return Err(CallRefusal::Step(StepRefusal::Shape));
    }
    let o = numbered::user_step(side, r, held, u, brought);
    if let Some(why) = o.refusal {
        return Err(CallRefusal::Step(why));
    }
    let sent = put_given(edition, first, side, o.apdu, d, ids, msgs, checks);
    let number = held_after(held, Event::User(u), brought);
    Ok(settle(rec, side, number, o, sent, 0))
}

// What the host reports.
#[derive(Clone, Copy, Drop)]
pub enum HostEvent {
    TimerExpires,
    SystemError,
}

fn host_step(side: Side, r: Record, e: HostEvent) -> Outcome
    ensures { result ≡ step_fitting side r (host_event e) }
{
    match e {
        HostEvent::TimerExpires => machine::timer_fitting(side, r),
        HostEvent::SystemError => machine::error_fitting(side, r),
    }
}

// The expiry of t-start, or a system error.
pub fn host_call(rec: &mut [u8], first: &mut [u8], second: &mut [u8], e: HostEvent) -> u64
    ensures { called result rec.new first.new second.new ≡ user_call rec.old first.old second.old (host_event e) 0 [] [] [] no_data }
{
    answer_number(host_answer(rec, first, second, e))
}

fn host_answer(
    rec: &mut [u8],
    first: &mut [u8],
    second: &mut [u8],
    e: HostEvent,
) -> Result<u64, CallRefusal>
    ensures { called (answer_number result) rec.new first.new second.new ≡ user_call rec.old first.old second.old (host_event e) 0 [] [] [] no_data }
{
    let Stored {
        side,
        machine: r,
        number: held,
    } = opened(rec, first, second)?;
    let o = host_step(side, r, e);
    if let Some(why) = o.refusal {
        return Err(CallRefusal::Step(why));
    }
    let sent = put_reply(first, side, o.apdu);
    Ok(settle(rec, side, held, o, sent, 0))
}

// A forward request with its dialogue number, and the forward message that the host gives.
pub fn forward_call(
    rec: &mut [u8],
    first: &mut [u8],
    second: &mut [u8],
    class: u64,
    security: u64,
    brought: u64,
    msgs: &[u8],
    f: Forward,
) -> u64
    ensures { called result rec.new first.new second.new ≡ forward_call rec.old first.old second.old class security brought msgs.now f }
{
    answer_number(forward_answer(rec, first, second, class, security, brought, msgs, f))
}

fn forward_answer(
    rec: &mut [u8],
    first: &mut [u8],
    second: &mut [u8],
    class: u64,
    security: u64,
    brought: u64,
    msgs: &[u8],
    f: Forward,
) -> Result<u64, CallRefusal>
    ensures { called (answer_number result) rec.new first.new second.new ≡ forward_call rec.old first.old second.old class security brought msgs.now f }
{
    let Stored {
        side,
        machine: r,
        number: held,
    } = opened(rec, first, second)?;
    let edition = r.edition;
    if !codec::forward_given_fits(edition, f, msgs) {
        return Err(CallRefusal::Step(StepRefusal::Shape));
    }
    let o = numbered::forward_step(side, r, held, class, security, brought);
    if let Some(why) = o.refusal {
        return Err(CallRefusal::Step(why));
    }
    let sent = codec::put_forward_pdu(edition, first, pdus_of(side), f, msgs);
    Ok(settle(rec, side, brought, o, sent, 0))
}

// The outcome of a step about what came: refused, and nothing changes; or the buffers are written and the record is kept.
fn conclude(
    rec: &mut [u8],
    first: &mut [u8],
    second: &mut [u8],
    edition: Edition,
    side: Side,
    number: u64,
    o: Outcome,
    x: Arrival,
    bytes: &[u8],
) -> Result<u64, CallRefusal>
    requires { (is_reply o.apdu ≡ true) × (buffer_least ≤ length second.old) × (x.from + x.count ≤ length (lent bytes.now)) × (x.count + 8 ≤ 8 * buffer_least) }
    ensures { called (answer_number result) rec.new first.new second.new ≡ concluded_of rec.old first.old second.old edition side number o x (lent bytes.now) }
{
    if let Some(why) = o.refusal {
        return Err(CallRefusal::Step(why));
    }
    let sent = put_reply(first, side, o.apdu);
    let given = deliver(edition, second, o, x, bytes);
    Ok(settle(rec, side, number, o, sent, given))
}

// A dialogue-service primitive with its dialogue number, with user data (given 1) or without (0). Its codes and its number are looked at before its
// user data are read: whatever is read has codes of its type.
pub fn service_call(
    rec: &mut [u8],
    first: &mut [u8],
    second: &mut [u8],
    p: ServicePrimitive,
    brought: u64,
    given: u64,
    bytes: &[u8],
) -> u64
    ensures { called result rec.new first.new second.new ≡ service_call rec.old first.old second.old p brought given bytes.now }
{
    answer_number(service_answer(rec, first, second, p, brought, given, bytes))
}

fn service_answer(
    rec: &mut [u8],
    first: &mut [u8],
    second: &mut [u8],
    p: ServicePrimitive,
    brought: u64,
    given: u64,
    bytes: &[u8],
) -> Result<u64, CallRefusal>
    ensures { called (answer_number result) rec.new first.new second.new ≡ service_call rec.old first.old second.old p brought given bytes.now }
{
    let Stored {
        side,
        machine: r,
        number: held,
    } = opened(rec, first, second)?;
    if 1 < given {
        return Err(CallRefusal::Step(StepRefusal::Shape));
    }
    if !p.fits() {
        return Err(CallRefusal::Step(StepRefusal::Shape));
    }
    if is_stale(held, Event::Service(p, UserData::Absent), brought) {
        return Err(CallRefusal::Step(StepRefusal::Stale));
    }
    let edition = r.edition;
    let x = arrived(edition, side, r.control, p, given, bytes);
    let o = machine::service_fitting(side, r, p, x.pdu);
    conclude(rec, first, second, edition, side, brought, o, x, bytes)
}
