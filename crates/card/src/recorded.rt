// An APDU by itself, as it was recorded: what it is, or where it is at fault. No machine is asked.
ghost use Rattle.std.specs.Prelude.{◌≡◌, ◌<◌};
ghost use Rattle.card.specs.Recorded.{apdu_answer, apdu_call, apdu_in, apdu_number, apdu_said, start_given};
ghost use Rattle.quick.specs.Leading.{leading_call};

use apdu::Apdu;
use codec::read_apdu;
use editions::Edition;
use fields::Refusal;
use pdus::{PduType, Span};
use words::Limit;

// The types by the numbers that the host has for them: the C interface of `peat_read_apdu`.
const AIRCRAFT: u64 = 1;

const GROUND: u64 = 2;

const PLAIN_AIRCRAFT: u64 = 3;

const PLAIN_GROUND: u64 = 4;

fn apdu_said(tag: u64, number: u64, given: u64) -> u64
    requires { (tag < 256) × (given < 256) }
    ensures { result ≡ apdu_said tag number given }
{
    256 * (tag + 256 * (number % 256 + 256 * given))
}

// Whether a start holds message data.
fn start_given(edition: Edition, message: Option<Span>) -> u64
    ensures { result ≡ start_given edition message }
{
    match edition {
        Edition::Protected => 1,
        Edition::Plain => u64::from(message.is_some()),
    }
}

#[tactic(auto, unfolding(crate::specs::Recorded::apdu_number))]
fn apdu_number(edition: Edition, a: Apdu) -> u64
    ensures { result ≡ apdu_number edition a }
{
    match a {
        Apdu::AbortUser(r) => apdu_said(0, r, 0),
        Apdu::AbortProvider(r) => apdu_said(1, r, 0),
        Apdu::Start(m, d) => apdu_said(2, m, start_given(edition, d.message)),
        Apdu::Send(_) => apdu_said(3, 0, 1),
        Apdu::Forward(_) => apdu_said(4, 0, 0),
        Apdu::ForwardResponse(x) => apdu_said(5, x, 0),
    }
}

#[tactic(auto, unfolding(crate::specs::Recorded::apdu_answer))]
fn apdu_answer(edition: Edition, a: Result<Apdu, Refusal>) -> u64
    ensures { result ≡ apdu_answer edition a }
{
    match a {
        Ok(x) => apdu_number(edition, x),
        Err(r) => fields::packed(r),
    }
}

fn apdu_in(edition: Edition, pdus: PduType, bytes: &[u8]) -> u64
    ensures { result ≡ apdu_in edition pdus bytes.now }
{
    apdu_answer(edition, read_apdu(edition, bytes, pdus))
}

// The APDU that the lent bytes are, read as the type that a number names: its alternative, its reason or mode, and whether there is message
// data.
#[tactic(auto, unfolding(crate::specs::Recorded::apdu_call))]
#[unsafe(no_mangle)]
pub extern "C" fn peat_read_apdu(which: u64, bytes: &[u8]) -> u64
    ensures { result ≡ apdu_call which bytes.now }
{
    match which {
        AIRCRAFT => apdu_in(Edition::Protected, PduType::AircraftPdus, bytes),
        GROUND => apdu_in(Edition::Protected, PduType::GroundPdus, bytes),
        PLAIN_AIRCRAFT => apdu_in(Edition::Plain, PduType::AircraftPdus, bytes),
        PLAIN_GROUND => apdu_in(Edition::Plain, PduType::GroundPdus, bytes),
        _ => Limit::SHAPE,
    }
}

// What the APDU that the lent bytes are is, from its leading fields alone: its alternative, and the mode of a start. What follows is not looked
// at.
#[unsafe(no_mangle)]
pub extern "C" fn peat_read_leading(which: u64, bytes: &[u8]) -> u64
    ensures { result ≡ leading_call which bytes.now }
{
    quick::leading(which, bytes)
}
