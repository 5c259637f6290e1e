// Contents of a string: items of `unit` bits, told by their count and the place after them. Nothing is copied when they are read.
ghost use Rattle.std.specs.Prelude.{◌≡◌, ◌&&◌, ◌++◌, ◌+◌, ◌*◌, ◌^◌, ◌<◌, ◌≤◌, leb, length};
ghost use Rattle.bits.specs.Bits.{bits_n, bits_to, run};
ghost use Rattle.bits.specs.Put.{left, put_if};
ghost use Rattle.fields.specs.Encodings.{led_fits, length_bits, length_fits};
ghost use Rattle.fields.specs.Fields.{contents_at, run_at, sized_at, string_at};

use crate::lengths::length_within;
use crate::numbers::{refused_at, whole};
use crate::{Fault, Reading};

// A run of n items. A product that no word holds passes every end.
pub fn contents(s: &[u8], end: usize, at: usize, unit: usize, n: usize) -> Reading<u64>
    ensures { result ≡ contents_at (bits_to s.now end) at unit n }
{
    let Some(count) = unit.checked_mul(n) else {
        return refused_at(at, Fault::Short);
    };
    within_end(s, end, at, count, n)
}

// n items in count bits: whether they are there.
#[tactic(auto, unfolding(crate::specs::Fields::run_at))]
fn within_end(s: &[u8], end: usize, at: usize, count: usize, n: usize) -> Reading<u64>
    ensures { result ≡ run_at (bits_to s.now end) at count n }
{
    if bits::within(s.len(), end, at, count) {
        return Ok((n as u64, at + count));
    }
    refused_at(at, Fault::Short)
}

// A string with a length, of which from least to most items are carried. (Inlined: its bounds are constants wherever the archive calls it, and
// a call of its own took `peat_data_part` up to ten in a hundred more instructions.)
#[tactic(auto, unfolding(crate::specs::Fields::string_at))]
#[inline(always)]
pub fn string(s: &[u8], end: usize, at: usize, unit: usize, least: u64, most: u64) -> Reading<u64>
    ensures { result ≡ string_at (bits_to s.now end) at unit least most }
{
    let (n, from) = length_within(s, end, at, least, most)?;
    contents(s, end, from, unit, n as usize)
}

// A string whose size is from least to most.
#[tactic(auto, unfolding(crate::specs::Fields::sized_at))]
pub fn sized(s: &[u8], end: usize, at: usize, unit: usize, least: u64, most: u64) -> Reading<u64>
    ensures { result ≡ sized_at (bits_to s.now end) at unit least most }
{
    let (n, from) = whole(s, end, at, least, most)?;
    contents(s, end, from, unit, n as usize)
}

// A number of a few bits that waits for the length behind it.
#[derive(Drop)]
pub struct Lead {
    pub width: usize,
    pub number: u64,
}

impl Lead {
    // No bits.
    pub const NONE: Lead = Lead {
        width: 0,
        number: 0,
    };
}

// A number of a few bits, and behind it a length and count bits, which stand at a place within the first send bits of src. The number and the length
// go out as one.
fn put_counted(
    buf: &mut [u8],
    end: usize,
    at: usize,
    lead: Lead,
    n: usize,
    src: &[u8],
    send: usize,
    from: usize,
    count: usize,
) -> Option<usize>
    requires { (lead.width ≤ 8) × (lead.number < 2 ^ lead.width) × (n < 16384) }
    ensures { left result buf.new ≡ put_if (leb (from + count) (length (bits_to src.now send))) buf.old end at (bits_n lead.width lead.number ++ (length_bits n ++ run src.now from count)) }
{
    if n < 128 {
        let v = lead.number * 256 + n as u64;
        return bits::put_led(buf, end, at, lead.width + 8, v, src, send, from, count);
    }
    let v = lead.number * 65536 + (32768 + n as u64);
    bits::put_led(buf, end, at, lead.width + 16, v, src, send, from, count)
}

// A number of at most eight bits, and behind it the length of n items, and the items, of at most 64 bits each, which stand at a place within the first
// send bits of src.
pub fn put_led_string(
    buf: &mut [u8],
    end: usize,
    at: usize,
    lead: Lead,
    unit: usize,
    n: usize,
    src: &[u8],
    send: usize,
    from: usize,
) -> Option<usize>
    ensures { left result buf.new ≡ put_if (led_fits lead.width lead.number unit && (length_fits n && leb (from + unit * n) (length (bits_to src.now send)))) buf.old end at (bits_n lead.width lead.number ++ (length_bits n ++ run src.now from (unit * n))) }
{
    if 8 < lead.width || (1 << lead.width) <= lead.number || 64 < unit || 16384 <= n {
        return None;
    }
    put_counted(buf, end, at, lead, n, src, send, from, unit * n)
}

// The length of n items, and the items, of any size.
pub fn put_string(
    buf: &mut [u8],
    end: usize,
    at: usize,
    unit: usize,
    n: usize,
    src: &[u8],
    send: usize,
    from: usize,
) -> Option<usize>
    ensures { left result buf.new ≡ put_if (length_fits n && leb (from + unit * n) (length (bits_to src.now send))) buf.old end at (length_bits n ++ run src.now from (unit * n)) }
{
    if 16384 <= n {
        return None;
    }
    let count = unit.checked_mul(n)?;
    put_counted(buf, end, at, Lead::NONE, n, src, send, from, count)
}
