// Whether the lists have places for the jobs that they are to take.
ghost use Rattle.std.specs.Prelude.{◌≡◌, ◌||◌, ◌≤◌, length};
ghost use Rattle.envelope.specs.Envelopes.{most_bits};
ghost use Rattle.recordings.specs.Blocks.{block_jobs, enough};
ghost use Rattle.recordings.specs.Jobs.{only_first, only_second, repeated};
ghost use Rattle.recordings.specs.Recordings.{jobs, most_bytes};
ghost use Rattle.recordings.specs.Showing.{lacks};

use crate::Recording;
use crate::blocks::count_jobs;

// Whether a list has a place for every job that so many bytes of envelopes may have. An envelope has three bytes with one of the 127 jobs of
// one group, and four or more with any other.
fn is_enough(bytes: usize, list: &[u8]) -> bool
    requires { bytes ≤ most_bytes }
    ensures { result ≡ enough bytes (length list.now) }
{
    (bytes + 127) / 4 <= list.len() / Recording::PLACE
}

// Whether a list has fewer places than jobs to take. The jobs are counted only where a list may be too short for recordings of that length:
// with longer ones, the walk that writes is the only one.
pub(crate) fn lacks_room(
    first: &[u8],
    second: &[u8],
    left: &[u8],
    right: &[u8],
    twice: &[u8],
    block: &mut [u64],
    x: &mut [u8],
    y: &mut [u8],
) -> bool
    requires { (length first.now ≤ most_bytes) × (length second.now ≤ most_bytes) × (length block.old ≡ block_jobs) × (length x.old ≡ block_jobs) × (length y.old ≡ block_jobs) }
    ensures { result ≡ (lacks (only_first (jobs most_bits first.now) (jobs most_bits second.now)) left.now || (lacks (only_second (jobs most_bits first.now) (jobs most_bits second.now)) right.now || lacks (repeated (jobs most_bits first.now) (jobs most_bits second.now)) twice.now)) }
{
    if is_enough(first.len(), left) {
        if is_enough(second.len(), right) {
            if is_enough((first.len() + second.len()) / 2, twice) {
                return false;
            }
        }
    }
    let c = count_jobs(first, second, block, x, y);
    if left.len() / Recording::PLACE < c.first {
        return true;
    }
    if right.len() / Recording::PLACE < c.second {
        return true;
    }
    twice.len() / Recording::PLACE < c.repeated
}
