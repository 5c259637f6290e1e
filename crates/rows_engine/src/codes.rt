// The codes of the columns, as specs/Names of crate rows has them. They are numbers and no enum: a column is a number in the definitions (`Row` and `Out` of
// crate rows), and `walk` answers for any title and any condition.
// Side.
pub const AIR: u64 = 0;

pub const GROUND: u64 = 1;

pub const BOTH: u64 = 2;

// Events, as the rows of the tables name them; the last four stand for several.
pub const START_REQUEST: u64 = 0;

pub const DSC_START_REQUEST: u64 = 1;

pub const START_RESPONSE_ACCEPTED: u64 = 2;

pub const START_RESPONSE_REJECTED: u64 = 3;

pub const DSC_START_RESPONSE_ACCEPTED: u64 = 4;

pub const DSC_START_RESPONSE_REJECTED: u64 = 5;

pub const MESSAGE_REQUEST: u64 = 6;

pub const END_REQUEST: u64 = 7;

pub const DSC_END_REQUEST: u64 = 8;

pub const END_RESPONSE_ACCEPTED: u64 = 9;

pub const END_RESPONSE_REJECTED: u64 = 10;

pub const DSC_END_RESPONSE_ACCEPTED: u64 = 11;

pub const DSC_END_RESPONSE_REJECTED: u64 = 12;

pub const USER_ABORT: u64 = 13;

pub const FORWARD_REQUEST: u64 = 14;

pub const D_START: u64 = 15;

pub const D_START_ACCEPTED: u64 = 16;

pub const D_START_REJECTED: u64 = 17;

pub const D_DATA: u64 = 18;

pub const D_END: u64 = 19;

pub const D_END_ACCEPTED: u64 = 20;

pub const D_END_REJECTED: u64 = 21;

pub const D_ABORT: u64 = 22;

pub const D_P_ABORT: u64 = 23;

pub const EXPIRY: u64 = 24;

pub const SYSTEM_ERROR: u64 = 25;

pub const ANY_USER: u64 = 30;

pub const ANY_SERVICE: u64 = 31;

pub const D_START_CONFIRMATION: u64 = 32;

pub const D_END_CONFIRMATION: u64 = 33;

// State: before the event (any_state, busy: all but IDLE) and after it (stays).
pub const IDLE: u64 = 0;

pub const START_REQ: u64 = 1;

pub const START_IND: u64 = 2;

pub const DIALOGUE: u64 = 3;

pub const END: u64 = 4;

pub const FORWARD: u64 = 5;

pub const ANY_STATE: u64 = 6;

pub const BUSY: u64 = 7;

pub const STAYS: u64 = 6;

// DSC before the event (as_is: any) and after it; t-start and the active user after it.
pub const NO: u64 = 1;

pub const YES: u64 = 2;

pub const AS_IS: u64 = 0;

// Condition: the first that holds.
pub const PLAIN: u64 = 20;

pub const WRONG_QUALITY: u64 = 1;

pub const TURNED_AWAY: u64 = 2;

pub const WRONG_SECURITY: u64 = 3;

pub const NO_PDU: u64 = 4;

pub const INVALID_PDU: u64 = 5;

pub const START: u64 = 6;

pub const DSC_START: u64 = 7;

pub const START_OF_AIRCRAFT: u64 = 8;

pub const SEND: u64 = 9;

pub const UNSUPPORTED_FORWARD: u64 = 10;

pub const EQUAL_FORWARD: u64 = 11;

pub const OTHER_FORWARD: u64 = 12;

pub const RESPONSE: u64 = 13;

pub const ABORT_OF_USER: u64 = 14;

pub const ABORT_OF_PROVIDER: u64 = 15;

pub const OTHER_PDU: u64 = 16;

pub const NO_MESSAGE: u64 = 17;

pub const REPEAT: u64 = 18;

pub const TIMER_STOPPED: u64 = 19;

pub const ANYHOW: u64 = 0;

// What the record keeps of the event.
pub const NOTHING: u64 = 0;

pub const JOB: u64 = 1;

pub const SECURITY: u64 = 2;

// Refusal.
pub const TAKEN: u64 = 0;

pub const PROHIBITED: u64 = 3;

pub const WITHOUT_MESSAGE: u64 = 4;

pub const REPEATED: u64 = 5;

// Dialogue-service primitive with its APDU.
pub const SILENT: u64 = 0;

pub const START_OUT: u64 = 1;

pub const DSC_START_OUT: u64 = 2;

pub const START_ANSWER: u64 = 3;

pub const DATA_OUT: u64 = 4;

pub const END_OUT: u64 = 5;

pub const END_ANSWER: u64 = 6;

pub const ABORT_BY_USER: u64 = 7;

pub const ABORT_BY_PROVIDER: u64 = 8;

pub const FORWARD_OUT: u64 = 9;

pub const FORWARD_ANSWER: u64 = 10;

pub const FORWARD_ANSWER_WITH_VERSION: u64 = 11;

// User primitive.
pub const UNTOLD: u64 = 0;

pub const START_INDICATION: u64 = 1;

pub const DSC_START_INDICATION: u64 = 2;

pub const START_CONFIRMATION: u64 = 3;

pub const MESSAGE_INDICATION: u64 = 4;

pub const END_INDICATION: u64 = 5;

pub const END_CONFIRMATION: u64 = 6;

pub const ABORT_OF_PDU: u64 = 7;

pub const ABORT_FOR: u64 = 8;

pub const FORWARD_INDICATION: u64 = 9;

pub const FORWARD_CONFIRMATION: u64 = 10;

// What the printed tables have: a cell that says it, cells that say "cannot occur" or "not permitted", or none.
pub const PAGE: u64 = 0;

pub const CANNOT_OCCUR: u64 = 1;

pub const ADDED: u64 = 2;
