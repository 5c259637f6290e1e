// The primitives of the user, and what the host reports.
ghost use Rattle.std.specs.Prelude.{◌≡◌, true, false};
ghost use Rattle.card.specs.Face.{abort_requested, data_call, holds_message, message_requested, numbered_call, plain_call};
ghost use Rattle.step.specs.Call.{called};

use crate::given::{NONE, data_call, given_data, plain_call};
use machine::event::{Event, UserPrimitive};
use step::{HostEvent, host_call, user_call};

// Start request, with its dialogue number and its mode.
#[unsafe(no_mangle)]
pub extern "C" fn peat_start(
    rec: &mut [u8],
    number: u64,
    mode: u64,
    class: u64,
    security: u64,
    ids: &[u8],
    msgs: &[u8],
    message: u64,
    checks: &[u8],
    check: u64,
    first: &mut [u8],
    second: &mut [u8],
) -> u64
    ensures { called result rec.new first.new second.new ≡
        numbered_call rec.old first.old second.old (UserPrimitive.StartServiceRequest mode class security)
        number ids.now msgs.now message checks.now check }
{
    let d = given_data(ids.len(), message, check);
    let u = UserPrimitive::StartServiceRequest(mode, class, security);
    user_call(rec, first, second, u, number, ids, msgs, checks, d)
}

// CPDLC-start response.
#[unsafe(no_mangle)]
pub extern "C" fn peat_start_response(
    rec: &mut [u8],
    res: u64,
    ids: &[u8],
    msgs: &[u8],
    message: u64,
    checks: &[u8],
    check: u64,
    first: &mut [u8],
    second: &mut [u8],
) -> u64
    ensures { called result rec.new first.new second.new ≡
        data_call rec.old first.old second.old (UserPrimitive.StartServiceResponse false res (holds_message message))
        ids.now msgs.now message checks.now check }
{
    data_call(
        rec,
        UserPrimitive::StartServiceResponse(false, res, message != NONE),
        ids,
        msgs,
        message,
        checks,
        check,
        first,
        second,
    )
}

// DSC-start response.
#[unsafe(no_mangle)]
pub extern "C" fn peat_dsc_start_response(
    rec: &mut [u8],
    res: u64,
    ids: &[u8],
    msgs: &[u8],
    message: u64,
    checks: &[u8],
    check: u64,
    first: &mut [u8],
    second: &mut [u8],
) -> u64
    ensures { called result rec.new first.new second.new ≡
        data_call rec.old first.old second.old (UserPrimitive.StartServiceResponse true res (holds_message message))
        ids.now msgs.now message checks.now check }
{
    data_call(
        rec,
        UserPrimitive::StartServiceResponse(true, res, message != NONE),
        ids,
        msgs,
        message,
        checks,
        check,
        first,
        second,
    )
}

// CPDLC-message request, with its job.
#[unsafe(no_mangle)]
pub extern "C" fn peat_message_request(
    rec: &mut [u8],
    job: u64,
    ids: &[u8],
    msgs: &[u8],
    message: u64,
    checks: &[u8],
    check: u64,
    first: &mut [u8],
    second: &mut [u8],
) -> u64
    ensures { called result rec.new first.new second.new ≡
        data_call rec.old first.old second.old (message_requested message job) ids.now
        msgs.now message checks.now check }
{
    data_call(
        rec,
        UserPrimitive::MessageServiceRequest(message != NONE, job),
        ids,
        msgs,
        message,
        checks,
        check,
        first,
        second,
    )
}

// CPDLC-end request.
#[unsafe(no_mangle)]
pub extern "C" fn peat_end_request(
    rec: &mut [u8],
    ids: &[u8],
    msgs: &[u8],
    message: u64,
    checks: &[u8],
    check: u64,
    first: &mut [u8],
    second: &mut [u8],
) -> u64
    ensures { called result rec.new first.new second.new ≡
        data_call rec.old first.old second.old (UserPrimitive.EndServiceRequest false (holds_message message))
        ids.now msgs.now message checks.now check }
{
    data_call(
        rec,
        UserPrimitive::EndServiceRequest(false, message != NONE),
        ids,
        msgs,
        message,
        checks,
        check,
        first,
        second,
    )
}

// DSC-end request.
#[unsafe(no_mangle)]
pub extern "C" fn peat_dsc_end_request(
    rec: &mut [u8],
    ids: &[u8],
    msgs: &[u8],
    message: u64,
    checks: &[u8],
    check: u64,
    first: &mut [u8],
    second: &mut [u8],
) -> u64
    ensures { called result rec.new first.new second.new ≡
        data_call rec.old first.old second.old (UserPrimitive.EndServiceRequest true (holds_message message))
        ids.now msgs.now message checks.now check }
{
    data_call(
        rec,
        UserPrimitive::EndServiceRequest(true, message != NONE),
        ids,
        msgs,
        message,
        checks,
        check,
        first,
        second,
    )
}

// CPDLC-end response.
#[unsafe(no_mangle)]
pub extern "C" fn peat_end_response(
    rec: &mut [u8],
    res: u64,
    ids: &[u8],
    msgs: &[u8],
    message: u64,
    checks: &[u8],
    check: u64,
    first: &mut [u8],
    second: &mut [u8],
) -> u64
    ensures { called result rec.new first.new second.new ≡
        data_call rec.old first.old second.old (UserPrimitive.EndServiceResponse false res (holds_message message))
        ids.now msgs.now message checks.now check }
{
    data_call(
        rec,
        UserPrimitive::EndServiceResponse(false, res, message != NONE),
        ids,
        msgs,
        message,
        checks,
        check,
        first,
        second,
    )
}

// DSC-end response.
#[unsafe(no_mangle)]
pub extern "C" fn peat_dsc_end_response(
    rec: &mut [u8],
    res: u64,
    ids: &[u8],
    msgs: &[u8],
    message: u64,
    checks: &[u8],
    check: u64,
    first: &mut [u8],
    second: &mut [u8],
) -> u64
    ensures { called result rec.new first.new second.new ≡
        data_call rec.old first.old second.old (UserPrimitive.EndServiceResponse true res (holds_message message))
        ids.now msgs.now message checks.now check }
{
    data_call(
        rec,
        UserPrimitive::EndServiceResponse(true, res, message != NONE),
        ids,
        msgs,
        message,
        checks,
        check,
        first,
        second,
    )
}

fn abort_requested(reason: u64) -> UserPrimitive
    ensures { result ≡ abort_requested reason }
{
    if reason == NONE {
        UserPrimitive::UserAbortServiceRequest(false, 0)
    } else {
        UserPrimitive::UserAbortServiceRequest(true, reason)
    }
}

// CPDLC-user-abort request, with a reason or NONE.
#[unsafe(no_mangle)]
pub extern "C" fn peat_user_abort(
    rec: &mut [u8],
    reason: u64,
    first: &mut [u8],
    second: &mut [u8],
) -> u64
    ensures { called result rec.new first.new second.new ≡
        plain_call rec.old first.old second.old (Event.User (abort_requested reason)) }
{
    plain_call(rec, abort_requested(reason), first, second)
}

// t-start expires.
#[unsafe(no_mangle)]
pub extern "C" fn peat_timer_expiry(rec: &mut [u8], first: &mut [u8], second: &mut [u8]) -> u64
    ensures { called result rec.new first.new second.new ≡
        plain_call rec.old first.old second.old Event.TimerExpires }
{
    host_call(rec, first, second, HostEvent::TimerExpires)
}

// An unrecoverable system error.
#[unsafe(no_mangle)]
pub extern "C" fn peat_system_error(rec: &mut [u8], first: &mut [u8], second: &mut [u8]) -> u64
    ensures { called result rec.new first.new second.new ≡
        plain_call rec.old first.old second.old Event.UnrecoverableSystemError }
{
    host_call(rec, first, second, HostEvent::SystemError)
}
