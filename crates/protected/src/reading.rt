// What lent bytes are: an APDU of type 22, and where its content stands; or no valid PDU.
ghost use Rattle.std.specs.Prelude.{◌≡◌, ◌+◌, ◌^◌, ◌<◌};
ghost use Rattle.front.specs.Padding.{lent};
ghost use Rattle.front.specs.Runs.{no_content, run_from};
ghost use Rattle.front.specs.Alternatives.{with};
ghost use Rattle.front.specs.Apdus.{apdu_at, found_in};
ghost use Rattle.protected.specs.Bodies.{choice_of};

use crate::places::content_of;
use apdu::Apdu;
use front::Found;
use machine::event::UserData;
use pdus::{Content, PduType, Span};

// A PDU that holds no content.
fn bare(pdu: UserData) -> Found
    ensures { result ≡ with pdu no_content }
{
    Found {
        pdu,
        content: Content {
            identifier: Span { at: 0, count: 0 },
            message: Span {
                at: 0,
                count: Content::NONE,
            },
            check: Span { at: 0, count: 0 },
        },
    }
}

// A forward message begins behind the four bits of its alternative, and ends with its message.
fn forward_run(x: Span) -> Found
    requires { x.at + x.count < 2 ^ 64 }
    ensures { result ≡ with UserData.Forward (run_from 4 (x.at + x.count)) }
{
    Found {
        pdu: UserData::Forward,
        content: Content {
            identifier: Span { at: 0, count: 0 },
            message: Span {
                at: 4,
                count: (x.at + x.count).saturating_sub(4),
            },
            check: Span { at: 0, count: 0 },
        },
    }
}

// A refusal means "no valid PDU".
#[tactic(auto, using(crate::proofs::Leaves::found_not, crate::proofs::Leaves::forward_small))]
pub fn read_found(bytes: &[u8], pdus: PduType) -> Found
    ensures { result ≡ found_in (apdu_at (choice_of pdus) (lent bytes.now) 0) }
{
    match apdu::read_apdu(bytes, pdus) {
        Err(_) => bare(UserData::NotValid),
        Ok(Apdu::AbortUser(r)) => bare(UserData::AbortUser(r)),
        Ok(Apdu::AbortProvider(r)) => bare(UserData::AbortProvider(r)),
        Ok(Apdu::Start(m, d)) => Found {
            pdu: UserData::Start(m == 1),
            content: content_of(d),
        },
        Ok(Apdu::Send(d)) => Found {
            pdu: UserData::Send,
            content: content_of(d),
        },
        Ok(Apdu::Forward(f)) => forward_run(f.message),
        Ok(Apdu::ForwardResponse(x)) => bare(UserData::ForwardResponse(x)),
    }
}
