// The primitives of the dialogue service, each with its dialogue number, and with its user data as lent bytes or with none.
ghost use Rattle.std.specs.Prelude.{◌≡◌, []};
ghost use Rattle.step.specs.Call.{called, service_call};

use machine::event::ServicePrimitive;

// D-START indication: its calling peer, security, quality of service as received, and version (0: none).
#[unsafe(no_mangle)]
pub extern "C" fn peat_d_start_indication(
    rec: &mut [u8],
    number: u64,
    peer: u64,
    security: u64,
    priority: u64,
    rate: u64,
    routing: u64,
    version: u64,
    given: u64,
    bytes: &[u8],
    first: &mut [u8],
    second: &mut [u8],
) -> u64
    ensures { called result rec.new first.new second.new ≡
        service_call rec.old first.old second.old
        (ServicePrimitive.DStartIndication peer security (record { priority = priority; rer = rate; routing = routing }) version) number
        given bytes.now }
{
    card::peat_d_start_indication(
        rec, number, peer, security, priority, rate, routing, version, given, bytes, first, second,
    )
}

// D-START confirmation, with a version (0: none).
#[unsafe(no_mangle)]
pub extern "C" fn peat_d_start_confirmation(
    rec: &mut [u8],
    number: u64,
    res: u64,
    source: u64,
    security: u64,
    version: u64,
    given: u64,
    bytes: &[u8],
    first: &mut [u8],
    second: &mut [u8],
) -> u64
    ensures { called result rec.new first.new second.new ≡
        service_call rec.old first.old second.old
        (ServicePrimitive.DStartConfirmation res source security version) number given bytes.now }
{
    card::peat_d_start_confirmation(
        rec, number, res, source, security, version, given, bytes, first, second,
    )
}

// D-DATA indication.
#[unsafe(no_mangle)]
pub extern "C" fn peat_d_data_indication(
    rec: &mut [u8],
    number: u64,
    given: u64,
    bytes: &[u8],
    first: &mut [u8],
    second: &mut [u8],
) -> u64
    ensures { called result rec.new first.new second.new ≡
        service_call rec.old first.old second.old ServicePrimitive.DDataIndication number given
        bytes.now }
{
    card::peat_d_data_indication(rec, number, given, bytes, first, second)
}

// D-END indication.
#[unsafe(no_mangle)]
pub extern "C" fn peat_d_end_indication(
    rec: &mut [u8],
    number: u64,
    given: u64,
    bytes: &[u8],
    first: &mut [u8],
    second: &mut [u8],
) -> u64
    ensures { called result rec.new first.new second.new ≡
        service_call rec.old first.old second.old ServicePrimitive.DEndIndication number given
        bytes.now }
{
    card::peat_d_end_indication(rec, number, given, bytes, first, second)
}

// D-END confirmation.
#[unsafe(no_mangle)]
pub extern "C" fn peat_d_end_confirmation(
    rec: &mut [u8],
    number: u64,
    res: u64,
    given: u64,
    bytes: &[u8],
    first: &mut [u8],
    second: &mut [u8],
) -> u64
    ensures { called result rec.new first.new second.new ≡
        service_call rec.old first.old second.old (ServicePrimitive.DEndConfirmation res) number given
        bytes.now }
{
    card::peat_d_end_confirmation(rec, number, res, given, bytes, first, second)
}

// D-ABORT indication.
#[unsafe(no_mangle)]
pub extern "C" fn peat_d_abort_indication(
    rec: &mut [u8],
    number: u64,
    originator: u64,
    given: u64,
    bytes: &[u8],
    first: &mut [u8],
    second: &mut [u8],
) -> u64
    ensures { called result rec.new first.new second.new ≡
        service_call rec.old first.old second.old (ServicePrimitive.DAbortIndication originator) number
        given bytes.now }
{
    card::peat_d_abort_indication(rec, number, originator, given, bytes, first, second)
}

// D-P-ABORT indication, which has no user data.
#[unsafe(no_mangle)]
pub extern "C" fn peat_d_p_abort_indication(
    rec: &mut [u8],
    number: u64,
    first: &mut [u8],
    second: &mut [u8],
) -> u64
    ensures { called result rec.new first.new second.new ≡
        service_call rec.old first.old second.old ServicePrimitive.DPAbortIndication number 0 [] }
{
    card::peat_d_p_abort_indication(rec, number, first, second)
}
