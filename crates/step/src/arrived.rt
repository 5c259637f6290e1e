// The user data of a dialogue-service primitive as it arrives: what it is read as.
ghost use Rattle.std.specs.Prelude.{◌≡◌, ◌+◌, ◌-◌, ◌^◌, ◌≤◌, ◌<◌};
ghost use Rattle.apdu.specs.Pdus.{lent};
ghost use Rattle.codec.specs.Codec.{apdu_at};
ghost use Rattle.step.specs.Call.{confirmation_reads, peer_reads, reads_again, reads_as};
ghost use Rattle.step.specs.Handing.{arrival_of, arrived, body_of, came, message_of, or_again, root_of, send_at, start_at};

use apdu::{Apdu, Data, Forward};
use control::{Control, Side, awaits_response};
use editions::Edition;
use machine::event::{ServicePrimitive, UserData};
use pdus::{PduType, Span};

// What came with a primitive: what it is to the machine, and the bits of it that a user may be handed. Of a forward message these are all of its
// bits, of message data those behind the extension bit.
#[derive(Drop)]
pub struct Arrival {
    pub pdu: UserData,
    pub from: usize,
    pub count: usize,
}

// The type that a facility's, or an aircraft's, D-START is read as.
fn of_peer(peer: u64) -> PduType
    ensures { result ≡ peer_reads peer }
{
    if peer == ServicePrimitive::FACILITY {
        PduType::GroundPdus
    } else {
        PduType::AircraftPdus
    }
}

// The type that a confirmation is read as.
fn of_confirmation(c: Control) -> PduType
    ensures { result ≡ confirmation_reads c }
{
    if awaits_response(c) {
        PduType::GroundPdus
    } else {
        PduType::AircraftPdus
    }
}

#[tactic(auto, unfolding(crate::specs::Call::reads_as))]
fn reads_as(side: Side, c: Control, p: ServicePrimitive) -> PduType
    ensures { result ≡ reads_as side c p }
{
    match side {
        Side::Air => PduType::GroundPdus,
        Side::Ground => match p {
            ServicePrimitive::DStartIndication(x, _, _, _) => of_peer(x),
            ServicePrimitive::DStartConfirmation(_, _, _, _) => of_confirmation(c),
            _ => PduType::AircraftPdus,
        },
    }
}

#[tactic(auto, unfolding(crate::specs::Call::reads_again))]
fn reads_again(side: Side, p: ServicePrimitive) -> bool
    ensures { result ≡ reads_again side p }
{
    match side {
        Side::Air => false,
        Side::Ground => match p {
            ServicePrimitive::DAbortIndication(o) => o == ServicePrimitive::PROVIDER,
            _ => false,
        },
    }
}

// Where the message data of a send begin.
fn send_at(pdus: PduType) -> usize
    ensures { result ≡ send_at pdus }
{
    match pdus {
        PduType::AircraftPdus => 3,
        PduType::GroundPdus => 4,
    }
}

// Where those of a start begin: the mode of a startdown stands before them.
fn start_at(pdus: PduType, m: u64) -> usize
    ensures { result ≡ start_at pdus m }
{
    match pdus {
        PduType::AircraftPdus => { if m == 0 { 4 } else { 5 } }
        PduType::GroundPdus => 4,
    }
}

// Nothing is handed on.
fn bare(m: UserData) -> Arrival
    ensures { result ≡ came m 0 0 }
{
    Arrival {
        pdu: m,
        from: 0,
        count: 0,
    }
}

// Message data whose extension bit stands at a place.
fn root_of(m: UserData, at: usize, d: Data) -> Arrival
    requires { (at + 1 ≤ d.check.at + d.check.count) × (d.check.at + d.check.count < 2 ^ 64) }
    ensures { result ≡ root_of m at d }
{
    let check = d.check;
    let from = at + 1;
    Arrival {
        pdu: m,
        from,
        count: check.at + check.count - from,
    }
}

// A message in place, or none.
fn message_of(m: UserData, message: Option<Span>) -> Arrival
    ensures { result ≡ message_of m message }
{
    match message {
        None => bare(m),
        Some(x) => Arrival {
            pdu: m,
            from: x.at,
            count: x.count,
        },
    }
}

// Message data, whose extension bit, where they have one, stands at a place.
fn body_of(edition: Edition, m: UserData, at: usize, d: Data) -> Arrival
    requires { edition ≡ Edition.Protected → (at + 1 ≤ d.check.at + d.check.count) × (d.check.at + d.check.count < 2 ^ 64) }
    ensures { result ≡ body_of edition m at d }
{
    match edition {
        Edition::Plain => {
            let message = d.message;
            message_of(m, message)
        }
        Edition::Protected => root_of(m, at, d),
    }
}

// A forward message, which stands behind the four bits of its alternative.
fn forward_of(f: Forward) -> Arrival
    requires { (4 ≤ f.message.at + f.message.count) × (f.message.at + f.message.count < 2 ^ 64) }
    ensures { result ≡ came UserData.Forward 4 (f.message.at + f.message.count - 4) }
{
    let message = f.message;
    Arrival {
        pdu: UserData::Forward,
        from: 4,
        count: message.at + message.count - 4,
    }
}

// User data read as a type. Refusals 10 to 17 mean "no valid PDU".
#[tactic(auto, unfolding(crate::specs::Handing::arrival_of))]
fn read_as(edition: Edition, bytes: &[u8], pdus: PduType) -> Arrival
    ensures { result ≡ arrival_of edition pdus (apdu_at edition pdus (lent bytes.now)) }
{
    match codec::read_apdu(edition, bytes, pdus) {
        Err(_) => bare(UserData::NotValid),
        Ok(Apdu::AbortUser(x)) => bare(UserData::AbortUser(x)),
        Ok(Apdu::AbortProvider(x)) => bare(UserData::AbortProvider(x)),
        Ok(Apdu::Start(m, d)) => body_of(edition, UserData::Start(m == 1), start_at(pdus, m), d),
        Ok(Apdu::Send(d)) => body_of(edition, UserData::Send, send_at(pdus), d),
        Ok(Apdu::Forward(f)) => forward_of(f),
        Ok(Apdu::ForwardResponse(x)) => bare(UserData::ForwardResponse(x)),
    }
}

// Of a second reading, where the first is none, only an abort by a provider counts.
#[tactic(auto, unfolding(crate::specs::Handing::again, crate::specs::Handing::or_again, crate::specs::Handing::abort_in))]
fn read_again(edition: Edition, x: Arrival, bytes: &[u8]) -> Arrival
    ensures { result ≡ or_again x (apdu_at edition PduType.GroundPdus (lent bytes.now)) }
{
    match x.pdu {
        UserData::NotValid => match codec::read_apdu(edition, bytes, PduType::GroundPdus) {
            Ok(Apdu::AbortProvider(r)) => bare(UserData::AbortProvider(r)),
            _ => x,
        },
        _ => x,
    }
}

// What came with a primitive, of which the types that may be there are tried: given 1 user data, 0 none.
pub(crate) fn arrived(
    edition: Edition,
    side: Side,
    c: Control,
    p: ServicePrimitive,
    given: u64,
    bytes: &[u8],
) -> Arrival
    ensures { result ≡ arrived edition side c p given (lent bytes.now) }
{
    if given == 1 {
        let x = read_as(edition, bytes, reads_as(side, c, p));
        if reads_again(side, p) {
            return read_again(edition, x, bytes);
        }
        return x;
    }
    bare(UserData::Absent)
}
