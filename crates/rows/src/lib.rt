// The state tables of Doc 9705, 2.3.5-2 (air) and 2.3.5-3 (ground), as rows, and what a plain engine gives that walks them (document 02, E10). There is no
// function here: crate rows_engine has the code.
#![tactic(auto)]

use machine::event::UserData;

// What is done: the next state; DSC, t-start and the user after it; what is kept; the refusal; what is sent and its reason; what is told and its reason.
#[derive(Clone, Copy)]
pub struct Out {
    pub next: u64,
    pub dsc: u64,
    pub timer: u64,
    pub user: u64,
    pub keeps: u64,
    pub refusal: u64,
    pub sends: u64,
    pub reason: u64,
    pub tells: u64,
    pub why: u64,
}

// A row: side, event, state, DSC, condition; what is done; and whether it is on the page.
#[derive(Clone, Copy)]
pub struct Row {
    pub side: u64,
    pub event: u64,
    pub state: u64,
    pub dsc: u64,
    pub condition: u64,
    pub out: Out,
    pub mark: u64,
}

// The parameters of an event that an outcome repeats.
#[derive(Clone, Copy)]
pub struct Parameters {
    pub class: u64,
    pub security: u64,
    pub result: u64,
    pub job: u64,
    pub reason: u64,
    pub version: u64,
    pub pdu: UserData,
}
