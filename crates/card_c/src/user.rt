// The primitives of the user, and what the host reports.
ghost use Rattle.std.specs.Prelude.{◌≡◌, true, false};
ghost use Rattle.card.specs.Face.{abort_requested, data_call, holds_message, message_requested, numbered_call, plain_call};
ghost use Rattle.step.specs.Call.{called};

use machine::event::{Event, UserPrimitive};

// Start request, with its dialogue number and its mode.
#[unsafe(no_mangle)]
pub extern "C" fn peat_start(
    rec: &mut [u8],
    number: u64,
    mode: u64,
    class: u64,
    security: u64,
    ids: &[u8],
    msgs: &[u8],
    message: u64,
    checks: &[u8],
    check: u64,
    first: &mut [u8],
    second: &mut [u8],
) -> u64
    ensures { called result rec.new first.new second.new ≡
        numbered_call rec.old first.old second.old (UserPrimitive.StartServiceRequest mode class security)
        number ids.now msgs.now message checks.now check }
{
    card::peat_start(
        rec, number, mode, class, security, ids, msgs, message, checks, check, first, second,
    )
}

// CPDLC-start response.
#[unsafe(no_mangle)]
pub extern "C" fn peat_start_response(
    rec: &mut [u8],
    res: u64,
    ids: &[u8],
    msgs: &[u8],
    message: u64,
    checks: &[u8],
    check: u64,
    first: &mut [u8],
    second: &mut [u8],
) -> u64
    ensures { called result rec.new first.new second.new ≡
        data_call rec.old first.old second.old (UserPrimitive.StartServiceResponse false res (holds_message message))
        ids.now msgs.now message checks.now check }
{
    card::peat_start_response(rec, res, ids, msgs, message, checks, check, first, second)
}

// DSC-start response.
#[unsafe(no_mangle)]
pub extern "C" fn peat_dsc_start_response(
    rec: &mut [u8],
    res: u64,
    ids: &[u8],
    msgs: &[u8],
    message: u64,
    checks: &[u8],
    check: u64,
    first: &mut [u8],
    second: &mut [u8],
) -> u64
    ensures { called result rec.new first.new second.new ≡
        data_call rec.old first.old second.old (UserPrimitive.StartServiceResponse true res (holds_message message))
        ids.now msgs.now message checks.now check }
{
    card::peat_dsc_start_response(rec, res, ids, msgs, message, checks, check, first, second)
}

// CPDLC-message request, with its job.
#[unsafe(no_mangle)]
pub extern "C" fn peat_message_request(
    rec: &mut [u8],
    job: u64,
    ids: &[u8],
    msgs: &[u8],
    message: u64,
    checks: &[u8],
    check: u64,
    first: &mut [u8],
    second: &mut [u8],
) -> u64
    ensures { called result rec.new first.new second.new ≡
        data_call rec.old first.old second.old (message_requested message job) ids.now
        msgs.now message checks.now check }
{
    card::peat_message_request(rec, job, ids, msgs, message, checks, check, first, second)
}

// CPDLC-end request.
#[unsafe(no_mangle)]
pub extern "C" fn peat_end_request(
    rec: &mut [u8],
    ids: &[u8],
    msgs: &[u8],
    message: u64,
    checks: &[u8],
    check: u64,
    first: &mut [u8],
    second: &mut [u8],
) -> u64
    ensures { called result rec.new first.new second.new ≡
        data_call rec.old first.old second.old (UserPrimitive.EndServiceRequest false (holds_message message))
        ids.now msgs.now message checks.now check }
{
    card::peat_end_request(rec, ids, msgs, message, checks, check, first, second)
}

// DSC-end request.
#[unsafe(no_mangle)]
pub extern "C" fn peat_dsc_end_request(
    rec: &mut [u8],
    ids: &[u8],
    msgs: &[u8],
    message: u64,
    checks: &[u8],
    check: u64,
    first: &mut [u8],
    second: &mut [u8],
) -> u64
    ensures { called result rec.new first.new second.new ≡
        data_call rec.old first.old second.old (UserPrimitive.EndServiceRequest true (holds_message message))
        ids.now msgs.now message checks.now check }
{
    card::peat_dsc_end_request(rec, ids, msgs, message, checks, check, first, second)
}

// CPDLC-end response.
#[unsafe(no_mangle)]
pub extern "C" fn peat_end_response(
    rec: &mut [u8],
    res: u64,
    ids: &[u8],
    msgs: &[u8],
    message: u64,
    checks: &[u8],
    check: u64,
    first: &mut [u8],
    second: &mut [u8],
) -> u64
    ensures { called result rec.new first.new second.new ≡
        data_call rec.old first.old second.old (UserPrimitive.EndServiceResponse false res (holds_message message))
        ids.now msgs.now message checks.now check }
{
    card::peat_end_response(rec, res, ids, msgs, message, checks, check, first, second)
}

// DSC-end response.
#[unsafe(no_mangle)]
pub extern "C" fn peat_dsc_end_response(
    rec: &mut [u8],
    res: u64,
    ids: &[u8],
    msgs: &[u8],
    message: u64,
    checks: &[u8],
    check: u64,
    first: &mut [u8],
    second: &mut [u8],
) -> u64
    ensures { called result rec.new first.new second.new ≡
        data_call rec.old first.old second.old (UserPrimitive.EndServiceResponse true res (holds_message message))
        ids.now msgs.now message checks.now check }
{
    card::peat_dsc_end_response(rec, res, ids, msgs, message, checks, check, first, second)
}

// CPDLC-user-abort request, with a reason or NONE.
#[unsafe(no_mangle)]
pub extern "C" fn peat_user_abort(
    rec: &mut [u8],
    reason: u64,
    first: &mut [u8],
    second: &mut [u8],
) -> u64
    ensures { called result rec.new first.new second.new ≡
        plain_call rec.old first.old second.old (Event.User (abort_requested reason)) }
{
    card::peat_user_abort(rec, reason, first, second)
}

// t-start expires.
#[unsafe(no_mangle)]
pub extern "C" fn peat_timer_expiry(rec: &mut [u8], first: &mut [u8], second: &mut [u8]) -> u64
    ensures { called result rec.new first.new second.new ≡
        plain_call rec.old first.old second.old Event.TimerExpires }
{
    card::peat_timer_expiry(rec, first, second)
}

// An unrecoverable system error.
#[unsafe(no_mangle)]
pub extern "C" fn peat_system_error(rec: &mut [u8], first: &mut [u8], second: &mut [u8]) -> u64
    ensures { called result rec.new first.new second.new ≡
        plain_call rec.old first.old second.old Event.UnrecoverableSystemError }
{
    card::peat_system_error(rec, first, second)
}
