// The open numbers as one number of 64 bits: bit n, counted from the lowest, is 1 where number n is open.
ghost use Rattle.std.specs.Prelude.{◌≡◌, ◌-◌, ◌^◌, ◌<◌};
ghost use Rattle.std.specs.Int.Count.{ones, count_trailing_zeros};
ghost use Rattle.book.specs.Books.{mark};

// The lowest number that is not open; 64 where all are.
pub(crate) fn lowest_free(opened: u64) -> usize
    ensures { result ≡ count_trailing_zeros 64 (2 ^ 64 - 1 - opened) }
{
    u64::trailing_zeros(!opened) as usize
}

// How many are open.
pub(crate) fn open_count(opened: u64) -> u64
    ensures { result ≡ ones opened }
{
    u64::count_ones(opened) as u64
}

// The bit of a number.
pub(crate) fn bit_of(n: usize) -> u64
    requires { n < 64 }
    ensures { result ≡ 2 ^ n }
{
    1 << n
}

// 1 for a job, 0 where there is none.
pub(crate) fn mark(job: u64) -> u64
    ensures { result ≡ mark job }
{
    if job == 0 { 0 } else { 1 }
}
