// What a call answers: a refusal, or the next record with what is invoked, told, written and delivered.
ghost use Rattle.std.specs.Prelude.{◌≡◌};
ghost use Rattle.machine.specs.Outcome.{refusal_number, refused, outcome};

use crate::event::{Qos, UserData};
use crate::record::Record;

#[derive(Clone, Copy)]
pub enum StepRefusal {
    Shape,
    Stale,
    Prohibited,
    NoMessage,
    Repeat,
}

// The dialogue-service primitive that is invoked; its user data is the outcome's APDU.
#[derive(Clone, Copy)]
pub enum Invoked {
    // Quality of Service, Security Requirements.
    DStartRequest(Qos, u64),
    // Result, Security Requirements.
    DStartResponse(u64, u64),
    DDataRequest,
    DEndRequest,
    // Result.
    DEndResponse(u64),
    // Originator.
    DAbortRequest(u64),
    // The D-START of a forward: Quality of Service, Security Requirements, version.
    DStartForwardRequest(Qos, u64, u64),
    // Its response, "rejected (permanent)": Security Requirements, version (0: none).
    DStartForwardResponse(u64, u64),
}

// The user primitive that is invoked; a flag says whether it is the DSC- (true) or the CPDLC- one.
#[derive(Clone, Copy)]
pub enum Told {
    // Class of Communication.
    StartIndication(bool, u64),
    // Result.
    StartConfirmation(bool, u64),
    MessageIndication,
    EndIndication(bool),
    // Result.
    EndConfirmation(bool, u64),
    // Reason.
    UserAbortIndication(u64),
    ProviderAbortIndication(u64),
    ForwardIndication,
    // Result, version (0: none).
    ForwardConfirmation(u64, u64),
}

#[derive(Clone, Copy)]
pub struct Outcome {
    pub refusal: Option<StepRefusal>,
    pub next: Record,
    pub invoked: Option<Invoked>,
    pub told: Option<Told>,
    // The APDU to write; Absent: none.
    pub apdu: UserData,
    // Is the message data of the received APDU delivered to the user.
    pub delivers: bool,
}

impl StepRefusal {
    // Document 01's number of what an outcome is refused for; 0: not refused.
    pub fn number(why: Option<StepRefusal>) -> u64
        ensures { result ≡ refusal_number why }
    {
        match why {
            None => 0,
            Some(StepRefusal::Shape) => 2,
            Some(StepRefusal::Stale) => 6,
            Some(StepRefusal::Prohibited) => 3,
            Some(StepRefusal::NoMessage) => 4,
            Some(StepRefusal::Repeat) => 5,
        }
    }
}

impl Outcome {
    // A refused call: the record as it was, and nothing else.
    pub fn refused(why: Option<StepRefusal>, r: Record) -> Outcome
        ensures { result ≡ refused why r }
    {
        Outcome {
            refusal: why,
            next: r,
            invoked: None,
            told: None,
            apdu: UserData::Absent,
            delivers: false,
        }
    }

    // What is not refused.
    pub(crate) fn taken(
        r: Record,
        invoked: Option<Invoked>,
        told: Option<Told>,
        apdu: UserData,
        delivers: bool,
    ) -> Outcome
        ensures { result ≡ outcome r invoked told apdu delivers }
    {
        Outcome {
            refusal: None,
            next: r,
            invoked,
            told,
            apdu,
            delivers,
        }
    }
}
