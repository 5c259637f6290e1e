// Two recordings compared, for the host.
ghost use Rattle.std.specs.Prelude.{◌≡◌, length};
ghost use Rattle.card.specs.Comparing.{compare_at, compared_number, comparison, count_bytes, counts_of, tells_by};
ghost use Rattle.layout.specs.Calls.{sent};

use recordings::Compared;
use recordings::comparing::compare;
use words::Limit;

// What is reported, in one number.
fn compared_number(c: Compared) -> u64
    ensures { result ≡ compared_number c }
{
    let places = (c.byte % 65536) as u64
        + 65536 * ((c.index % 65536) as u64 + 65536 * (c.field % 256));
    c.refusal % 256 + 256 * (c.recording % 256 + 256 * places)
}

// The bytes that take the three counts.
const COUNT_BYTES: usize = 6;

// The three counts into their six bytes.
fn put_counts(counts: &mut [u8], c: Compared)
    requires { length counts.old ≡ count_bytes }
    ensures { counts.new ≡ counts_of c }
{
    counts.copy_from_slice(&[
        ((c.first / 256) % 256) as u8,
        (c.first % 256) as u8,
        ((c.second / 256) % 256) as u8,
        (c.second % 256) as u8,
        ((c.repeated / 256) % 256) as u8,
        (c.repeated % 256) as u8,
    ]);
}

// The number of a report, and its counts where it is no refusal.
#[tactic(auto, unfolding(crate::specs::Comparing::tells_by))]
fn tell(c: Compared, counts: &mut [u8]) -> u64
    requires { length counts.old ≡ count_bytes }
    ensures { sent result counts.new ≡ tells_by counts.old c }
{
    if c.refusal == 0 {
        put_counts(counts, c);
    }
    compared_number(c)
}

// Two recordings compared: the first envelope that differs, or where the rest of the longer one begins; the jobs into three lists, eight bytes
// each; how many each list has taken, into the lent range of six bytes; or the refusal.
#[tactic(auto, unfolding(crate::specs::Comparing::compare_at))]
#[unsafe(no_mangle)]
pub extern "C" fn peat_compare(
    first: &[u8],
    second: &[u8],
    left: &mut [u8],
    right: &mut [u8],
    twice: &mut [u8],
    counts: &mut [u8],
) -> u64
    ensures { comparison result left.new right.new twice.new counts.new ≡ compare_at first.now second.now left.old right.old twice.old counts.old }
{
    if counts.len() != COUNT_BYTES {
        return Limit::SHAPE;
    }
    tell(compare(first, second, left, right, twice), counts)
}
