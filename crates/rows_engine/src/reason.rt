// The reasons of a provider abort (2.3.4); the last is told to a user only.
pub const TIMER_EXPIRED: u64 = 0;

pub const UNDEFINED_ERROR: u64 = 1;

pub const INVALID_PDU: u64 = 2;

pub const PROTOCOL_ERROR: u64 = 3;

pub const COMMUNICATION_SERVICE_ERROR: u64 = 4;

pub const COMMUNICATION_SERVICE_FAILURE: u64 = 5;

pub const INVALID_QOS_PARAMETER: u64 = 6;

pub const EXPECTED_PDU_MISSING: u64 = 7;

pub const NOT_PERMITTED_PDU: u64 = 8;
