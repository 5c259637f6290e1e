// A record as the host keeps it: a lent range of a fixed size, of which every byte has its meaning.
#![tactic(auto)]

ghost use Rattle.std.specs.Prelude.{◌≡◌, ◌<◌, length};
ghost use Rattle.bits.specs.Bits.{bits_of};
ghost use Rattle.bits.specs.Put.{put_bits};
ghost use Rattle.machine.specs.Codes.{security_values, versions};
ghost use Rattle.stored.specs.Stored.{edition_in, end_code, flag, head_bytes, head_of, kept, load_at, record_bytes, side_code, side_of, state_of, store_at};

use control::{Control, Side, State};
use editions::Edition;
use machine::record::{Configuration, Record};

// What the bytes of a record say: its side, the record, and the dialogue number that it holds.
#[derive(Drop)]
pub struct Stored {
    pub side: Side,
    pub machine: Record,
    pub number: u64,
}

impl Stored {
    // The bytes of a record: nine of one code each, then eight of the highest job and eight of the dialogue number.
    const JOB_AT: usize = 9;

    const NUMBER_AT: usize = Stored::JOB_AT + 8;

    pub const SIZE: usize = Stored::NUMBER_AT + 8;

    // All of them in bits.
    const BITS: usize = 8 * Stored::SIZE;
}

fn side_code(s: Side) -> u8
    ensures { result ≡ side_code s }
{
    match s {
        Side::Air => 1,
        Side::Ground => 2,
    }
}

// Type 22 has the codes that it had before there was another.
fn end_code(s: Side, e: Edition) -> u8
    ensures { result ≡ end_code s e }
{
    let a = side_code(s);
    match e {
        Edition::Plain => a + 2,
        Edition::Protected => a,
    }
}

fn side_of(x: u8) -> Side
    ensures { result ≡ side_of x }
{
    match x {
        1 | 3 => Side::Air,
        _ => Side::Ground,
    }
}

fn edition_of(x: u8) -> Edition
    ensures { result ≡ edition_in x }
{
    if x <= 2 {
        Edition::Protected
    } else {
        Edition::Plain
    }
}

fn state_of(x: u8) -> State
    ensures { result ≡ state_of x }
{
    match x {
        0 => State::Idle,
        1 => State::StartReq,
        2 => State::StartInd,
        3 => State::Dialogue,
        4 => State::End,
        _ => State::Forward,
    }
}

// Whether the bytes in front of the job are those of a record.
#[tactic(auto, unfolding(crate::specs::Stored::head_fits))]
fn head_fits(b: &[u8]) -> bool
    requires { length b.now ≡ record_bytes }
    ensures { result ≡ head_of b.now }
{
    1 <= b[0]
        && b[0] <= 4
        && b[1] < 6
        && b[2] < 2
        && b[3] < 2
        && b[4] < 2
        && b[5] < 2
        && b[6] < 2
        && b[7] < 2
        && 1 <= b[8]
}

// What the bytes say, if they are those of a record.
#[tactic(auto, unfolding(crate::specs::Stored::load_at, crate::specs::Stored::with_numbers))]
pub fn load(b: &[u8]) -> Option<Stored>
    ensures { result ≡ load_at b.now }
{
    if b.len() != Stored::SIZE {
        return None;
    }
    if !head_fits(b) {
        return None;
    }
    let (highest, _) = bits::read_eight_bytes(b, Stored::BITS, Stored::JOB_AT)?;
    let (held, _) = bits::read_eight_bytes(b, Stored::BITS, Stored::NUMBER_AT)?;
    let state = state_of(b[1]);
    let dsc = b[2] == 1;
    let edition = edition_of(b[0]);
    Some(Stored {
        side: side_of(b[0]),
        machine: Record {
            control: Control { state, dsc },
            timer: b[3] == 1,
            active: b[4] == 1,
            highest,
            request: b[5] as u64,
            policy: b[6] as u64,
            forwards: b[7] == 1,
            version: b[8] as u64,
            edition,
        },
        number: held,
    })
}

// The bytes of a record in front of the job.
#[tactic(auto, unfolding(crate::specs::Stored::head_bytes))]
fn head_bytes(side: Side, r: Record) -> [u8; Stored::JOB_AT]
    requires { (r.request < security_values) × ((r.policy < security_values) × (r.version < versions)) }
    ensures { result ≡ head_bytes side r }
{
    let c = r.control;
    let s = c.state;
    let edition = r.edition;
    [
        end_code(side, edition),
        u64::from(s) as u8,
        u8::from(c.dsc),
        u8::from(r.timer),
        u8::from(r.active),
        r.request as u8,
        r.policy as u8,
        u8::from(r.forwards),
        r.version as u8,
    ]
}

// The bytes of a record in front of the job, into the first of a range.
fn put_head(b: &mut [u8], side: Side, r: Record)
    requires { (length b.old ≡ record_bytes) × ((r.request < security_values) × ((r.policy < security_values) × (r.version < versions))) }
    ensures { b.new ≡ put_bits b.old 0 (bits_of (head_bytes side r)) }
{
    b[..Stored::JOB_AT].copy_from_slice(&head_bytes(side, r));
}

// The bytes of a record with its dialogue number, into a range of their size. Nothing is written elsewhere, nor a record with codes outside their types.
#[tactic(auto, unfolding(crate::specs::Stored::store_at))]
pub fn store(b: &mut [u8], side: Side, r: Record, held: u64) -> bool
    ensures { kept result b.new ≡ store_at b.old side r held }
{
    if b.len() != Stored::SIZE {
        return false;
    }
    if Configuration::SECURITY_VALUES <= r.request || Configuration::SECURITY_VALUES <= r.policy {
        return false;
    }
    if r.version < 1 || Configuration::VERSIONS <= r.version {
        return false;
    }
    put_head(b, side, r);
    bits::put_eight_bytes(b, Stored::BITS, Stored::JOB_AT, r.highest);
    bits::put_eight_bytes(b, Stored::BITS, Stored::NUMBER_AT, held);
    true
}
