// The parts of message data that was delivered, taken out for the host.
ghost use Rattle.std.specs.Prelude.{◌≡◌, ◌*◌, ◌<◌};
ghost use Rattle.layout.specs.Calls.{sent};
ghost use Rattle.card.specs.Parts.{chosen, count_of, part_answer, part_call, put_out, unit_of};

use apdu::{Apdu, Data, put_run, read_data};
use pdus::Span;
use words::{Limit, Unwritten};

// The parts by the numbers that the host has for them: the C interface of `peat_data_part`.
const IDENTIFIER: u64 = 0;

const MESSAGE: u64 = 1;

const CHECK: u64 = 2;

#[tactic(auto, unfolding(crate::specs::Parts::chosen))]
fn chosen(which: u64, d: Data) -> Option<Span>
    ensures { result ≡ chosen which d }
{
    match which {
        IDENTIFIER => d.identifier,
        MESSAGE => d.message,
        _ => Some(d.check),
    }
}

#[tactic(auto, unfolding(crate::specs::Parts::unit_of))]
fn unit_of(which: u64) -> usize
    ensures { result ≡ unit_of which }
{
    if which == IDENTIFIER {
        Data::OCTET
    } else {
        Data::BIT
    }
}

#[tactic(auto, unfolding(crate::specs::Parts::part_answer))]
fn part_answer(w: Result<usize, Unwritten>) -> u64
    ensures { result ≡ part_answer w }
{
    match w {
        Ok(n) => 256 * (1 + 256 * ((n % 65536) as u64)),
        Err(x) => x.number(),
    }
}

// A part that stands in lent bytes, at the front of the buffer.
#[tactic(auto, unfolding(crate::specs::Parts::put_out))]
fn put_out(out: &mut [u8], s: &[u8], unit: usize, p: Option<Span>) -> u64
    requires { unit * count_of p < 65536 }
    ensures { sent result out.new ≡ put_out out.old s.now unit p }
{
    match p {
        None => 0,
        Some(x) => part_answer(put_run(out, s, x.at, unit * x.count)),
    }
}

// One part of message data as they were delivered: 0 the identifier, 1 the message, 2 the check.
#[tactic(auto, unfolding(crate::specs::Parts::part_call, crate::specs::Parts::put_chosen))]
#[unsafe(no_mangle)]
pub extern "C" fn peat_data_part(which: u64, delivered: &[u8], out: &mut [u8]) -> u64
    ensures { sent result out.new ≡ part_call out.old which delivered.now }
{
    if out.len() < Apdu::BUFFER {
        return Limit::ROOM;
    }
    if CHECK < which {
        return Limit::SHAPE;
    }
    match read_data(delivered) {
        Err(r) => fields::packed(r),
        Ok((d, _)) => put_out(out, delivered, unit_of(which), chosen(which, d)),
    }
}
