// What an APDU is, from its first bits (document 02, E11): for whoever routes it. Its leading fields lie within the first byte.
#![tactic(auto)]

ghost use Rattle.std.specs.Prelude.{◌≡◌};
ghost use Rattle.pdus.specs.declared.PduType.TheVariants.{AircraftPdus, GroundPdus};
ghost use Rattle.quick.specs.Leading.{byte_lead, leading_call};

use words::Limit;

// The types that an APDU is read as.
const AIRCRAFT: u64 = 1;

const GROUND: u64 = 2;

// What is answered, as `peat_read_apdu` has it: the alternative in the second byte and the mode of a start in the third; or the refusal in the
// first byte, and its place above. Numbers and no enum: the answer is the number, and where an enum's value is cast to it each row would be proved for
// each number.
const ABORT_USER: u64 = 0x0_0000;

const ABORT_PROVIDER: u64 = 0x0_0100;

const START: u64 = 0x0_0200;

const DSC_START: u64 = 0x1_0200;

const SEND: u64 = 0x0_0300;

const FORWARD: u64 = 0x0_0400;

const FORWARD_RESPONSE: u64 = 0x0_0500;

const NO_BIT: u64 = 10;

const UNKNOWN_ALTERNATIVE: u64 = 12;

const NO_SUCH_INDEX: u64 = 11 + 256;

const DEFAULT_MODE: u64 = 17 + 4 * 256;

// AircraftPDUs: the extension bit, two bits of index; of startdown the presence bit and the mode.
fn of_aircraft(first: u8) -> u64
    ensures { result ≡ byte_lead AircraftPdus first }
{
    match first {
        0..=31 => ABORT_USER,
        32..=63 => ABORT_PROVIDER,
        64..=79 => START,
        80..=87 => DEFAULT_MODE,
        88..=95 => DSC_START,
        96..=127 => SEND,
        _ => UNKNOWN_ALTERNATIVE,
    }
}

// GroundPDUs: the extension bit, three bits of index.
fn of_ground(first: u8) -> u64
    ensures { result ≡ byte_lead GroundPdus first }
{
    match first {
        0..=15 => ABORT_USER,
        16..=31 => ABORT_PROVIDER,
        32..=47 => START,
        48..=63 => SEND,
        64..=79 => FORWARD,
        80..=95 => FORWARD_RESPONSE,
        96..=127 => NO_SUCH_INDEX,
        _ => UNKNOWN_ALTERNATIVE,
    }
}

// The leading fields of the APDU that lent bytes are, read as the type that a number names. What follows the first byte is not looked at.
#[tactic(auto, using(crate::proofs::Bytes::first_says, crate::proofs::Bytes::nothing_says), unfolding(crate::specs::Leading::leading_call))]
pub fn leading(which: u64, s: &[u8]) -> u64
    ensures { result ≡ leading_call which s.now }
{
    match (which, s) {
        (AIRCRAFT, [first, ..]) => of_aircraft(*first),
        (GROUND, [first, ..]) => of_ground(*first),
        (AIRCRAFT | GROUND, _) => NO_BIT,
        _ => Limit::SHAPE,
    }
}
