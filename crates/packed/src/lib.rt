// The number that a call answers.
#![tactic(auto)]

ghost use Rattle.std.specs.Prelude.{◌≡◌, ◌+◌, ◌*◌, ◌<◌};
ghost use Rattle.packed.specs.Packed.{codes, invoked_number, invoked_version, packed, primitives, three, told_number, told_version, version_number};
ghost use Rattle.stored.specs.Stored.{flag};

use machine::outcome::{Invoked, Told};

// How many numbers there are in each part of the answer.
const REFUSALS: u64 = 256;

const CODES: u64 = 16;

const PRIMITIVES: u64 = 512;

const COUNTS: u64 = 32768;

const VERSIONS: u64 = 256;

// Result "rejected (permanent)".
const PERMANENT: u64 = 1;

// A primitive, its parameter, and its security value or its mode.
fn three(code: u64, x: u64, y: u64) -> u64
    requires { code < codes }
    ensures { result ≡ three code x y }
{
    code + CODES * (x % CODES + CODES * (y % 2))
}

// The number of a start's mode: 0 cpdlc, 1 dsc.
pub fn mode(dsc: bool) -> u64
    ensures { result ≡ flag dsc }
{
    u64::from(dsc)
}

#[tactic(auto, unfolding(crate::specs::Packed::invoked_number))]
fn invoked_number(i: Option<Invoked>) -> u64
    ensures { result ≡ invoked_number i }
{
    match i {
        None => three(0, 0, 0),
        Some(Invoked::DStartRequest(q, s)) => three(1, q.routing, s),
        Some(Invoked::DStartResponse(x, s)) => three(2, x, s),
        Some(Invoked::DDataRequest) => three(3, 0, 0),
        Some(Invoked::DEndRequest) => three(4, 0, 0),
        Some(Invoked::DEndResponse(x)) => three(5, x, 0),
        Some(Invoked::DAbortRequest(o)) => three(6, o, 0),
        Some(Invoked::DStartForwardRequest(q, s, _)) => three(1, q.routing, s),
        Some(Invoked::DStartForwardResponse(s, _)) => three(2, PERMANENT, s),
    }
}

#[tactic(auto, unfolding(crate::specs::Packed::told_number))]
fn told_number(t: Option<Told>) -> u64
    ensures { result ≡ told_number t }
{
    match t {
        None => three(0, 0, 0),
        Some(Told::StartIndication(m, class)) => three(1, class, mode(m)),
        Some(Told::StartConfirmation(m, x)) => three(2, x, mode(m)),
        Some(Told::MessageIndication) => three(3, 0, 0),
        Some(Told::EndIndication(m)) => three(4, 0, mode(m)),
        Some(Told::EndConfirmation(m, x)) => three(5, x, mode(m)),
        Some(Told::UserAbortIndication(x)) => three(6, x, 0),
        Some(Told::ProviderAbortIndication(x)) => three(7, x, 0),
        Some(Told::ForwardIndication) => three(8, 0, 0),
        Some(Told::ForwardConfirmation(x, _)) => three(9, x, 0),
    }
}

fn invoked_version(i: Option<Invoked>) -> u64
    ensures { result ≡ invoked_version i }
{
    match i {
        Some(Invoked::DStartForwardRequest(_, _, v)) => v,
        Some(Invoked::DStartForwardResponse(_, v)) => v,
        _ => 0,
    }
}

fn told_version(t: Option<Told>) -> u64
    ensures { result ≡ told_version t }
{
    match t {
        Some(Told::ForwardConfirmation(_, v)) => v,
        _ => 0,
    }
}

// The version that is sent, or the one that is told.
fn version_number(i: Option<Invoked>, t: Option<Told>) -> u64
    ensures { result ≡ version_number i t }
{
    let sent = invoked_version(i);
    if sent == 0 {
        return told_version(t);
    }
    sent
}

// The parts in their places.
#[tactic(auto, unfolding(crate::specs::Packed::packed))]
fn packed(invoked: u64, told: u64, sent: usize, given: usize, version: u64) -> u64
    requires { (invoked < primitives) × (told < primitives) }
    ensures { result ≡ packed invoked told sent given version }
{
    let second = given as u64 % COUNTS + COUNTS * (version % VERSIONS);
    let bits = sent as u64 % COUNTS + COUNTS * second;
    REFUSALS * (invoked + PRIMITIVES * (told + PRIMITIVES * bits))
}

// The number of a call that was taken: what it invokes and tells, and the bits in each buffer.
#[tactic(auto, using(crate::proofs::Unpacked::invoked_low, crate::proofs::Unpacked::told_low))]
pub fn answer(i: Option<Invoked>, t: Option<Told>, sent: usize, given: usize) -> u64
    ensures { result ≡ packed (invoked_number i) (told_number t) sent given (version_number i t) }
{
    packed(
        invoked_number(i),
        told_number(t),
        sent,
        given,
        version_number(i, t),
    )
}
