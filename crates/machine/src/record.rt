// The record of one dialogue at one end.
ghost use Rattle.std.specs.Prelude.{◌≡◌};
ghost use Rattle.machine.specs.Record.{fresh_record, enter};

use control::{Control, State};
use editions::Edition;

// What a record is made with.
#[derive(Drop)]
pub struct Configuration {
    // The security value that local policy accepts.
    pub policy: u64,
    // Whether the forward service is supported at the receiving end (Doc 9705 2.3.3.8.2).
    pub forwards: bool,
    // The own version number, 1 to 255 (Doc 9705 2.3.3.8.5.1).
    pub version: u64,
    // The edition, by its application type (document 02, E14).
    pub edition: Edition,
}

#[derive(Clone, Copy)]
pub struct Record {
    pub control: Control,
    // t-start runs.
    pub timer: bool,
    // The user is an active user (Doc 9880 3.5.5.1.6, Doc 9705 2.3.5.3.1 Note 2).
    pub active: bool,
    // The highest job taken.
    pub highest: u64,
    // The security value of the last start request.
    pub request: u64,
    // As it was made with: the security value that local policy accepts, whether forwarding is supported, the own version, the edition.
    pub policy: u64,
    pub forwards: bool,
    pub version: u64,
    pub edition: Edition,
}

impl Configuration {
    // "no security" and "secured exchange" (Doc 9705 2.3.6.2.3.1).
    pub const SECURITY_VALUES: u64 = 2;
    // A version number is below this.
    pub const VERSIONS: u64 = 256;
}

impl Record {
    pub const NO_SECURITY: u64 = 0;

    // IDLE, DSC false, timer stopped, user not active, highest job 0, request value "no security".
    pub fn fresh(g: Configuration) -> Record
        ensures { result ≡ fresh_record g }
    {
        Record {
            control: Control::CLOSED,
            timer: false,
            active: false,
            highest: 0,
            request: Record::NO_SECURITY,
            policy: g.policy,
            forwards: g.forwards,
            version: g.version,
            edition: g.edition,
        }
    }

    // Entering IDLE stops the timer and makes the user not active.
    #[tactic(auto, unfolding(crate::specs::Record::enter))]
    pub(crate) fn enter(self, c: Control) -> Record
        ensures { result ≡ enter self c }
    {
        let busy = c.state != State::Idle;
        Record {
            control: c,
            timer: busy && self.timer,
            active: busy && self.active,
            ..self
        }
    }
}
