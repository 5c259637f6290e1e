// The reader and the copier of bits as calls from C, for counting their instructions. No card exports them.
#![tactic(auto)]

ghost use Rattle.std.specs.Prelude.{◌≡◌};
ghost use Rattle.bench_face.specs.Bench.{bench_copy, bench_read, copied};

// The greatest number: as an end it leaves out no bit of the lent bytes; as an answer it says that the call was refused.
const GREATEST: usize = usize::MAX;

// n bits of src copied to dst: the place after them, or the greatest number.
#[unsafe(no_mangle)]
#[tactic(auto, unfolding(crate::specs::Bench::bench_copy))]
pub extern "C" fn bench_copy(dst: &mut [u8], to: usize, src: &[u8], at: usize, n: usize) -> u64
    ensures { copied result dst.new ≡ bench_copy dst.old to src.now at n }
{
    match bits::copy_bits(dst, GREATEST, to, src, GREATEST, at, n) {
        Some(next) => next as u64,
        None => GREATEST as u64,
    }
}

// n bits of src read: the number that they say, or the greatest number, which 64 bits of 1 say too.
#[unsafe(no_mangle)]
#[tactic(auto, unfolding(crate::specs::Bench::bench_read))]
pub extern "C" fn bench_read(src: &[u8], at: usize, n: usize) -> u64
    ensures { result ≡ bench_read src.now at n }
{
    match bits::read_bits(src, GREATEST, at, n) {
        Some((v, _)) => v,
        None => GREATEST as u64,
    }
}
