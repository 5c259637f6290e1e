// The finite control of both machines, once over the side: state and DSC, and what a call or a primitive does to them.
// It decides every next state and every entry on the line; security, reasons, message data and jobs ride beside it.
#![tactic(auto)]

ghost use Rattle.std.specs.Prelude.{◌≡◌};
ghost use Rattle.control.specs.Control.{number, within, other, may_start, ender, marked, started, ended, takes, goes, takes_forward, forwarding, awaits_response, waits, expects, after};

// The side that a machine stands at.
#[derive(Clone, Copy, PartialEq, Eq)]
pub enum Side {
    Air,
    Ground,
}

// Doc 9880 3.5.5.1.5. FORWARD is the ground machine's alone.
#[derive(Clone, Copy, PartialEq, Eq)]
pub enum State {
    Idle,
    StartReq,
    StartInd,
    Dialogue,
    End,
    Forward,
}

#[derive(Clone, Copy)]
pub struct Control {
    pub state: State,
    pub dsc: bool,
}

impl Control {
    // Entering IDLE sets DSC false.
    pub const CLOSED: Control = Control {
        state: State::Idle,
        dsc: false,
    };
}

#[derive(Clone, Copy)]
pub enum Reply {
    Accepted,
    Rejected,
}

// What the user asks and the host reports; a flag says whether a primitive is the DSC- (true) or the CPDLC- one, of a start its mode.
#[derive(Clone, Copy)]
pub enum Call {
    StartRequest(bool),
    StartResponse(bool, Reply),
    MessageRequest,
    EndRequest(bool),
    EndResponse(bool, Reply),
    UserAbort,
    TimerExpiry,
    SystemError,
}

// The dialogue-service primitives that reach an end. A D-START indication tells its mode (true: dsc);
// DTurnedAway is a D-START confirmation that the dialogue service makes itself, or "rejected (transient)".
#[derive(Clone, Copy)]
pub enum Primitive {
    DStart(bool),
    DStartCnf(Reply),
    DTurnedAway,
    DData,
    DEnd,
    DEndCnf(Reply),
    DAbort,
    DPAbort,
}

impl From<State> for u64 {
    ghost from_gives = { λ s n. n ≡ number s };

    fn from(s: State) -> u64 {
        s as u64
    }
}

fn within(c: Control, s: State, dsc: bool) -> bool
    ensures { result ≡ within c s dsc }
{
    c.state == s && dsc == c.dsc
}

fn other(side: Side) -> Side
    ensures { result ≡ other side }
{
    match side {
        Side::Air => Side::Ground,
        Side::Ground => Side::Air,
    }
}

pub fn may_start(side: Side, dsc: bool) -> bool
    ensures { result ≡ may_start side dsc }
{
    match side {
        Side::Air => true,
        Side::Ground => !dsc,
    }
}

fn ender(side: Side, dsc: bool) -> bool
    ensures { result ≡ ender side dsc }
{
    match side {
        Side::Air => dsc,
        Side::Ground => !dsc,
    }
}

// A start with the mode dsc sets DSC, one with cpdlc leaves it (3.5.3.9 c, 2.3.5.5.2.2 b).
fn marked(dsc: bool, held: bool) -> bool
    ensures { result ≡ marked dsc held }
{
    dsc || held
}

fn started(a: Reply, dsc: bool) -> Control
    ensures { result ≡ started a dsc }
{
    match a {
        Reply::Accepted => Control {
            state: State::Dialogue,
            dsc,
        },
        Reply::Rejected => Control::CLOSED,
    }
}

fn ended(a: Reply, dsc: bool) -> Control
    ensures { result ≡ ended a dsc }
{
    match a {
        Reply::Accepted => Control::CLOSED,
        Reply::Rejected => Control {
            state: State::Dialogue,
            dsc,
        },
    }
}

// Where t-start runs.
fn waits(s: State) -> bool
    ensures { result ≡ waits s }
{
    s == State::StartReq || s == State::Forward
}

// Is a forward request taken? The air machine has none.
pub fn takes_forward(side: Side, c: Control) -> bool
    ensures { result ≡ takes_forward side c }
{
    side == Side::Ground && c.state == State::Idle
}

// Where a forward request leads.
pub fn forwarding(c: Control) -> Control
    ensures { result ≡ forwarding c }
{
    Control {
        state: State::Forward,
        dsc: c.dsc,
    }
}

// Is the response to a forward request awaited?
pub fn awaits_response(c: Control) -> bool
    ensures { result ≡ awaits_response c }
{
    c.state == State::Forward
}

pub fn takes(side: Side, c: Control, call: Call) -> bool
    ensures { result ≡ takes side c call }
{
    let s = c.state;
    match call {
        Call::StartRequest(dsc) => s == State::Idle && may_start(side, dsc),
        Call::StartResponse(dsc, _) => within(c, State::StartInd, dsc)
            && may_start(other(side), dsc),
        Call::MessageRequest => s == State::Dialogue || s == State::End && !ender(side, c.dsc),
        Call::EndRequest(dsc) => within(c, State::Dialogue, dsc) && ender(side, dsc),
        Call::EndResponse(dsc, _) => within(c, State::End, dsc) && !ender(side, dsc),
        Call::UserAbort | Call::SystemError => s != State::Idle,
        Call::TimerExpiry => waits(s),
    }
}

pub fn goes(c: Control, call: Call) -> Control
    ensures { result ≡ goes c call }
{
    match call {
        Call::StartRequest(dsc) => Control {
            state: State::StartReq,
            dsc: marked(dsc, c.dsc),
        },
        Call::StartResponse(_, a) => started(a, c.dsc),
        Call::MessageRequest => c,
        Call::EndRequest(_) => Control {
            state: State::End,
            dsc: c.dsc,
        },
        Call::EndResponse(_, a) => ended(a, c.dsc),
        Call::UserAbort | Call::TimerExpiry | Call::SystemError => Control::CLOSED,
    }
}

pub fn expects(side: Side, c: Control, p: Primitive) -> bool
    ensures { result ≡ expects side c p }
{
    let s = c.state;
    match p {
        Primitive::DStart(dsc) => s == State::Idle && may_start(other(side), dsc),
        Primitive::DStartCnf(_) | Primitive::DTurnedAway => {
            s == State::StartReq && may_start(side, c.dsc)
        }
        Primitive::DData => s == State::Dialogue || s == State::End && ender(side, c.dsc),
        Primitive::DEnd => s == State::Dialogue && !ender(side, c.dsc),
        Primitive::DEndCnf(_) => s == State::End && ender(side, c.dsc),
        Primitive::DAbort | Primitive::DPAbort => s != State::Idle,
    }
}

pub fn after(c: Control, p: Primitive) -> Control
    ensures { result ≡ after c p }
{
    match p {
        Primitive::DStart(dsc) => Control {
            state: State::StartInd,
            dsc: marked(dsc, c.dsc),
        },
        Primitive::DStartCnf(a) => started(a, c.dsc),
        Primitive::DTurnedAway | Primitive::DAbort | Primitive::DPAbort => Control::CLOSED,
        Primitive::DData => c,
        Primitive::DEnd => Control {
            state: State::End,
            dsc: c.dsc,
        },
        Primitive::DEndCnf(a) => ended(a, c.dsc),
    }
}
