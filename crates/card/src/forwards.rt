// The forward service: the request of the sending centre, and the parts of the message that a receiving centre was delivered.
ghost use Rattle.std.specs.Prelude.{◌≡◌, length};
ghost use Rattle.apdu.specs.Headings.{triple};
ghost use Rattle.book.specs.Books.{eights};
ghost use Rattle.card.specs.Forwarding.{edition_in, forward_part, forward_part_call, forward_parts, heading_by, heading_bytes, heading_numbers, heading_part, message_answer, opened, part_in, read_forward, told};
ghost use Rattle.layout.specs.Calls.{sent};
ghost use Rattle.step.specs.Call.{called, forward_call};

use crate::mail::put_eight;
use apdu::{Apdu, Forward, Heading, Triple, put_run};
use codec::read_forward;
use editions::Edition;
use pdus::Span;
use step::forward_call;
use words::{Limit, Unwritten};

// CPDLC-forward request, which brings a dialogue number as a start does. The flight identification is the count of its characters, and they
// as one number, seven bits each, the first on top; the direction says what the message's bits are (0 uplink, 1 downlink); they stand in
// msgs from the first on, and `message` says how many.
#[unsafe(no_mangle)]
pub extern "C" fn peat_forward_request(
    rec: &mut [u8],
    number: u64,
    class: u64,
    security: u64,
    year: u64,
    month: u64,
    day: u64,
    hours: u64,
    minutes: u64,
    seconds: u64,
    characters: u64,
    flight: u64,
    address: u64,
    direction: u64,
    msgs: &[u8],
    message: u64,
    first: &mut [u8],
    second: &mut [u8],
) -> u64
    ensures { called result rec.new first.new second.new ≡
        forward_call rec.old first.old second.old class security number msgs.now
        (record {
          heading = record {
            date = triple year month day;
            time = triple hours minutes seconds;
            characters = characters;
            flight = flight;
            address = address;
            direction = direction;
          };
          message = record { at = 0; count = message };
        }) }
{
    let heading = Heading {
        date: Triple {
            first: year,
            second: month,
            third: day,
        },
        time: Triple {
            first: hours,
            second: minutes,
            third: seconds,
        },
        characters,
        flight,
        address,
        direction,
    };
    let bits = Span {
        at: 0,
        count: message as usize,
    };
    let f = Forward {
        heading,
        message: bits,
    };
    forward_call(rec, first, second, class, security, number, msgs, f)
}

// The parts have the numbers that the host has for them: the C interface of `peat_forward_part`. This is that of the message's bits; as many parts
// are in front of them.
const MESSAGE: u64 = 10;

// The parts of a forward message of application type 2 begin here.
const PLAIN_PARTS: u64 = 16;

// The bytes that take those.
const HEADING_BYTES: usize = 80;

// The parts in front of the message's bits, by number.
fn heading_part(which: u64, h: Heading) -> u64
    ensures { result ≡ heading_part which h }
{
    match which {
        0 => h.date.first,
        1 => h.date.second,
        2 => h.date.third,
        3 => h.time.first,
        4 => h.time.second,
        5 => h.time.third,
        6 => h.characters,
        7 => h.flight,
        8 => h.address,
        _ => h.direction,
    }
}

fn told(n: u64) -> u64
    ensures { result ≡ told n }
{
    256 * (n % 72057594037927936)
}

#[tactic(auto, unfolding(crate::specs::Forwarding::message_answer))]
fn message_answer(w: Result<usize, Unwritten>) -> u64
    ensures { result ≡ message_answer w }
{
    match w {
        Ok(n) => told(n as u64),
        Err(x) => x.number(),
    }
}

// A part of a forward message that stands in lent bytes.
#[tactic(auto, unfolding(crate::specs::Forwarding::forward_part))]
fn forward_part(out: &mut [u8], s: &[u8], which: u64, f: Forward) -> u64
    ensures { sent result out.new ≡ forward_part out.old s.now which f }
{
    if which == MESSAGE {
        return message_answer(put_run(out, s, f.message.at, f.message.count));
    }
    told(heading_part(which, f.heading))
}

// The edition of a part's number, and the part.
fn edition_in(which: u64) -> Edition
    ensures { result ≡ edition_in which }
{
    if which < PLAIN_PARTS {
        Edition::Protected
    } else {
        Edition::Plain
    }
}

fn part_in(which: u64) -> u64
    ensures { result ≡ part_in which }
{
    if which < PLAIN_PARTS {
        which
    } else {
        which - PLAIN_PARTS
    }
}

// One part of a forward message as it was delivered.
#[tactic(auto, unfolding(crate::specs::Forwarding::forward_part_call, crate::specs::Forwarding::forward_chosen))]
#[unsafe(no_mangle)]
pub extern "C" fn peat_forward_part(which: u64, delivered: &[u8], out: &mut [u8]) -> u64
    ensures { sent result out.new ≡ forward_part_call out.old which delivered.now }
{
    if out.len() < Apdu::BUFFER {
        return Limit::ROOM;
    }
    let part = part_in(which);
    if MESSAGE < part {
        return Limit::SHAPE;
    }
    match read_forward(edition_in(which), delivered) {
        Err(r) => fields::packed(r),
        Ok((f, _)) => forward_part(out, delivered, part, f),
    }
}

// The parts in front of the message's bits into the bytes that are lent for them.
fn put_numbers(heading: &mut [u8], h: Heading)
    requires { length heading.old ≡ heading_bytes }
    ensures { heading.new ≡ eights (heading_numbers h) }
{
    for i in 0..10usize {
        put_eight(heading, 8 * i, heading_part(i as u64, h));
    }
}

// They are put where the message's bits are.
#[tactic(auto, unfolding(crate::specs::Forwarding::heading_by))]
fn put_heading(heading: &mut [u8], h: Heading, w: Result<usize, Unwritten>)
    requires { length heading.old ≡ heading_bytes }
    ensures { heading.new ≡ heading_by heading.old h w }
{
    if w.is_ok() {
        put_numbers(heading, h);
    }
}

// All parts of a forward message that stands in lent bytes.
#[tactic(auto, unfolding(crate::specs::Forwarding::forward_parts))]
fn forward_parts(heading: &mut [u8], out: &mut [u8], s: &[u8], f: Forward) -> u64
    requires { length heading.old ≡ heading_bytes }
    ensures { opened result heading.new out.new ≡ forward_parts heading.old out.old s.now f }
{
    let w = put_run(out, s, f.message.at, f.message.count);
    put_heading(heading, f.heading, w);
    message_answer(w)
}

// All parts of a forward message of an application type (2, 22) as it was delivered: the numbers into the lent range of eighty bytes, the message's bits
// into the buffer.
#[tactic(auto, unfolding(crate::specs::Forwarding::read_forward, crate::specs::Forwarding::forward_opened))]
#[unsafe(no_mangle)]
pub extern "C" fn peat_read_forward(
    delivered: &[u8],
    heading: &mut [u8],
    out: &mut [u8],
    application: u64,
) -> u64
    ensures { opened result heading.new out.new ≡ read_forward heading.old out.old delivered.now application }
{
    if out.len() < Apdu::BUFFER {
        return Limit::ROOM;
    }
    if !Edition::is_type(application) || heading.len() != HEADING_BYTES {
        return Limit::SHAPE;
    }
    match read_forward(Edition::of_type(application), delivered) {
        Err(r) => fields::packed(r),
        Ok((f, _)) => forward_parts(heading, out, delivered, f),
    }
}
