// Two recordings compared, for the host.
ghost use Rattle.std.specs.Prelude.{◌≡◌};
ghost use Rattle.card.specs.Comparing.{compare_at, comparison};

// Two recordings compared: the first envelope that differs, or where the rest of the longer one begins; the jobs into three lists, eight bytes
// each; how many each list has taken, into the lent range of six bytes; or the refusal.
#[unsafe(no_mangle)]
pub extern "C" fn peat_compare(
    first: &[u8],
    second: &[u8],
    left: &mut [u8],
    right: &mut [u8],
    twice: &mut [u8],
    counts: &mut [u8],
) -> u64
    ensures { comparison result left.new right.new twice.new counts.new ≡ compare_at first.now second.now left.old right.old twice.old counts.old }
{
    card::peat_compare(first, second, left, right, twice, counts)
}
