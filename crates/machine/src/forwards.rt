// The CPDLC-forward service at both centres: Doc 9705 2.3.5.5.13.1, 2.3.5.5.2.3, 2.3.5.5.2.4 and 2.3.5.5.3.3.
ghost use Rattle.std.specs.Prelude.{◌≡◌};
ghost use Rattle.machine.specs.Forwards.{forward_request, responds, forward_arrives, forward_confirmed};

use crate::calls::security_sent;
use crate::event::{Qos, UserData};
use crate::exceptions::closes;
use crate::outcome::{Invoked, Outcome, Told};
use crate::record::Record;
use control::{Control, forwarding};

// ATCForwardResponse.
const SUCCESS: u64 = 0;

const SERVICE_NOT_SUPPORTED: u64 = 1;

const VERSION_NOT_EQUAL: u64 = 2;

// A D-START without a version.
const NO_VERSION: u64 = 0;

// t-start is started, and the user becomes active.
#[tactic(auto, unfolding(crate::specs::Forwards::forward_request))]
pub(crate) fn forward_request(r: Record, class: u64, security: u64) -> Outcome
    ensures { result ≡ forward_request r class security }
{
    let edition = r.edition;
    let asked = security_sent(edition, security);
    let n = Record {
        timer: true,
        active: true,
        request: asked,
        ..r
    };
    let q = Qos {
        priority: Qos::HIGH_PRIORITY,
        rer: Qos::LOW_ERROR_RATE,
        routing: class,
    };
    let c = r.control;
    let version = r.version;
    let next = n.enter(forwarding(c));
    Outcome::taken(
        next,
        Some(Invoked::DStartForwardRequest(q, asked, version)),
        None,
        UserData::Forward,
        false,
    )
}

// The answer in the same event; IDLE stays, and the user does not become active.
#[tactic(auto, unfolding(crate::specs::Forwards::responds))]
fn responds(r: Record, res: u64, security: u64, version: u64, t: Option<Told>) -> Outcome
    ensures { result ≡ responds r res security version t }
{
    let edition = r.edition;
    let answered = security_sent(edition, security);
    let n = r.enter(Control::CLOSED);
    Outcome::taken(
        n,
        Some(Invoked::DStartForwardResponse(answered, version)),
        t,
        UserData::ForwardResponse(res),
        false,
    )
}

// A forward message: is forwarding supported, then are the versions equal?
#[tactic(auto, unfolding(crate::specs::Forwards::forward_arrives))]
pub(crate) fn forward_arrives(r: Record, security: u64, version: u64) -> Outcome
    ensures { result ≡ forward_arrives r security version }
{
    if !r.forwards {
        responds(r, SERVICE_NOT_SUPPORTED, security, NO_VERSION, None)
    } else if version == r.version {
        responds(
            r,
            SUCCESS,
            security,
            NO_VERSION,
            Some(Told::ForwardIndication),
        )
    } else {
        responds(r, VERSION_NOT_EQUAL, security, r.version, None)
    }
}

// t-start is stopped, and the user is told.
#[tactic(auto, unfolding(crate::specs::Forwards::forward_confirmed))]
pub(crate) fn forward_confirmed(r: Record, res: u64, version: u64) -> Outcome
    ensures { result ≡ forward_confirmed r res version }
{
    closes(
        Record { timer: false, ..r },
        Some(Told::ForwardConfirmation(res, version)),
    )
}
