// The events: user requests and responses, dialogue-service primitives with their parameters and user data, timer expiry, system error.
ghost use Rattle.std.specs.Prelude.{◌≡◌};
ghost use Rattle.editions.specs.Editions.{spares};
ghost use Rattle.machine.specs.UserData.{mode_of, reason_of, user_data_fits};
ghost use Rattle.machine.specs.Event.{is_dsc, has_mode, qos_fits, answer_fits, user_fits, service_fits, event_fits};

use crate::calls::ACCEPTED;
use crate::record::Configuration;
use control::{Side, may_start};
use editions::Edition;

// The user data of a primitive: none, not a valid PDU, or an APDU with its numbers. Message data is not held here.
#[derive(Clone, Copy)]
pub enum UserData {
    Absent,
    NotValid,
    // startup, or startDown with its mode (true: dsc).
    Start(bool),
    Send,
    AbortUser(u64),
    AbortProvider(u64),
    // ATCForwardMessage.
    Forward,
    // ATCForwardResponse, with its result.
    ForwardResponse(u64),
}

#[derive(Clone, Copy)]
pub struct Qos {
    pub priority: u64,
    // Residual error rate.
    pub rer: u64,
    // Routing class.
    pub routing: u64,
}

// The user's requests and responses. A flag before the other parameters says whether it is the DSC- (true) or the CPDLC- one.
#[derive(Clone, Copy)]
pub enum UserPrimitive {
    // Mode, Class of Communication, Security Required.
    StartServiceRequest(u64, u64, u64),
    // Result; does the data hold a CPDLC message.
    StartServiceResponse(bool, u64, bool),
    // Does the data hold a CPDLC message; the job.
    MessageServiceRequest(bool, u64),
    // Does the data hold a CPDLC message.
    EndServiceRequest(bool, bool),
    // Result; does the data hold a CPDLC message.
    EndServiceResponse(bool, u64, bool),
    // Is a reason given; the Reason.
    UserAbortServiceRequest(bool, u64),
}

// The dialogue service's indications and confirmations, but for their user data. Peer identifiers stay with the host.
#[derive(Clone, Copy)]
pub enum ServicePrimitive {
    // What the Calling Peer ID is, security, quality of service, version (0: none).
    DStartIndication(u64, u64, Qos, u64),
    // Result, reject source, security, version (0: none).
    DStartConfirmation(u64, u64, u64, u64),
    DDataIndication,
    DEndIndication,
    // Result.
    DEndConfirmation(u64),
    // Originator.
    DAbortIndication(u64),
    DPAbortIndication,
}

// A code is a u64, and any is taken: one that its type does not have is answered with SHAPE.
#[derive(Clone, Copy)]
pub enum Event {
    User(UserPrimitive),
    // CPDLC-forward request, which begins no dialogue: Class of Communication, Security Required.
    Forward(u64, u64),
    // A primitive of the dialogue service, with its user data.
    Service(ServicePrimitive, UserData),
    TimerExpires,
    UnrecoverableSystemError,
}

impl UserData {
    // The values of CPDLCProviderAbortReason.
    pub(crate) const PROVIDER_REASONS: u64 = 8;
    // The values of ATCForwardResponse.
    pub(crate) const FORWARD_RESULTS: u64 = 3;

    // The mode of a start (true: dsc).
    pub fn mode(self) -> bool
        ensures { result ≡ mode_of self }
    {
        match self {
            UserData::Start(dsc) => dsc,
            _ => false,
        }
    }

    // The reason of an abort, the result of a forward.
    pub fn reason(self) -> u64
        ensures { result ≡ reason_of self }
    {
        match self {
            UserData::AbortUser(x) | UserData::AbortProvider(x) | UserData::ForwardResponse(x) => x,
            _ => 0,
        }
    }

    // Is its reason or its result of its type?
    #[tactic(auto, unfolding(crate::specs::UserData::user_data_fits))]
    pub(crate) fn fits(self, edition: Edition) -> bool
        ensures { result ≡ user_data_fits edition self }
    {
        match self {
            UserData::AbortUser(reason) => reason < edition.user_reasons(),
            UserData::AbortProvider(reason) => reason < UserData::PROVIDER_REASONS,
            UserData::ForwardResponse(result) => result < UserData::FORWARD_RESULTS,
            _ => true,
        }
    }
}

impl Qos {
    pub const HIGH_PRIORITY: u64 = 1;

    pub const LOW_ERROR_RATE: u64 = 1;

    pub const ROUTING_CLASSES: u64 = 9;

    #[tactic(auto, unfolding(crate::specs::Event::qos_fits))]
    pub fn fits(self) -> bool
        ensures { result ≡ qos_fits self }
    {
        self.priority == Qos::HIGH_PRIORITY
            && self.rer == Qos::LOW_ERROR_RATE
            && self.routing < Qos::ROUTING_CLASSES
    }
}

pub fn is_dsc(mode: u64) -> bool
    ensures { result ≡ is_dsc mode }
{
    mode == UserPrimitive::DSC
}

// Has a start request at this side the mode? The ground machine has no downstream mode.
#[tactic(auto, unfolding(crate::specs::Event::has_mode))]
fn has_mode(side: Side, mode: u64) -> bool
    ensures { result ≡ has_mode side mode }
{
    mode < UserPrimitive::MODES && may_start(side, is_dsc(mode))
}

// The result of a start response. Where user data may be left out, a start that is accepted has no message.
fn answer_fits(edition: Edition, res: u64, holds: bool) -> bool
    ensures { result ≡ answer_fits (spares edition) res holds }
{
    !(edition.spares() && res == ACCEPTED && holds) && res < UserPrimitive::RESULTS
}

impl UserPrimitive {
    // Mode of a start request.
    pub const CPDLC: u64 = 0;

    pub const DSC: u64 = 1;

    pub(crate) const MODES: u64 = 2;

    pub(crate) const RESULTS: u64 = 2;

    #[tactic(auto, unfolding(crate::specs::Event::user_fits))]
    pub fn fits(self, side: Side, edition: Edition) -> bool
        ensures { result ≡ user_fits side edition self }
    {
        match self {
            UserPrimitive::StartServiceRequest(mode, class, security) => {
                has_mode(side, mode)
                    && class < Qos::ROUTING_CLASSES
                    && security < Configuration::SECURITY_VALUES
            }
            UserPrimitive::StartServiceResponse(_, result, holds) => answer_fits(
                edition, result, holds,
            ),
            UserPrimitive::MessageServiceRequest(_, job) => 0 < job,
            UserPrimitive::EndServiceRequest(_, _) => true,
            UserPrimitive::EndServiceResponse(_, result, _) => result < UserPrimitive::RESULTS,
            UserPrimitive::UserAbortServiceRequest(_, reason) => reason < edition.user_reasons(),
        }
    }
}

impl ServicePrimitive {
    // What the Calling Peer ID is: a facility designation, an aircraft address.
    pub const FACILITY: u64 = 0;

    pub const AIRCRAFT: u64 = 1;

    // Result "rejected (transient)", and Reject Source "DS provider".
    pub const TRANSIENT: u64 = 2;

    pub const DS_PROVIDER: u64 = 1;

    // Originator of a D-ABORT.
    pub const USER: u64 = 0;

    pub const PROVIDER: u64 = 1;

    // The values of each type.
    pub(crate) const PEERS: u64 = 2;

    pub(crate) const START_RESULTS: u64 = 3;

    pub(crate) const SOURCES: u64 = 2;

    pub(crate) const END_RESULTS: u64 = 2;

    pub(crate) const ORIGINATORS: u64 = 2;

    pub(crate) const VERSIONS: u64 = 256;

    #[tactic(auto, unfolding(crate::specs::Event::service_fits))]
    pub fn fits(self) -> bool
        ensures { result ≡ service_fits self }
    {
        match self {
            ServicePrimitive::DStartIndication(peer, security, _, version) => {
                peer < ServicePrimitive::PEERS
                    && security < Configuration::SECURITY_VALUES
                    && version < ServicePrimitive::VERSIONS
            }
            ServicePrimitive::DStartConfirmation(result, source, security, version) => {
                result < ServicePrimitive::START_RESULTS
                    && source < ServicePrimitive::SOURCES
                    && security < Configuration::SECURITY_VALUES
                    && version < ServicePrimitive::VERSIONS
            }
            ServicePrimitive::DEndConfirmation(result) => result < ServicePrimitive::END_RESULTS,
            ServicePrimitive::DAbortIndication(originator) => {
                originator < ServicePrimitive::ORIGINATORS
            }
            ServicePrimitive::DDataIndication
            | ServicePrimitive::DEndIndication
            | ServicePrimitive::DPAbortIndication => true,
        }
    }
}

impl Event {
    // Are its codes of their types? SHAPE is answered otherwise.
    #[tactic(auto, unfolding(crate::specs::Event::event_fits))]
    pub fn fits(self, side: Side, edition: Edition) -> bool
        ensures { result ≡ event_fits side edition self }
    {
        match self {
            Event::User(u) => u.fits(side, edition),
            Event::Forward(class, security) => {
                class < Qos::ROUTING_CLASSES && security < Configuration::SECURITY_VALUES
            }
            Event::Service(p, apdu) => p.fits() && apdu.fits(edition),
            Event::TimerExpires | Event::UnrecoverableSystemError => true,
        }
    }
}
