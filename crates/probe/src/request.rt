// The header of a request.
ghost use Rattle.std.specs.Prelude.{◌≤◌};

// How many bytes it has.
pub(crate) const HEADER: usize = 45;

#[derive(Drop)]
pub(crate) struct Request {
    pub op: u64,
    pub lo: u64,
    pub hi: u64,
    pub value: u64,
    pub at: usize,
    pub end: usize,
    pub len: usize,
    pub more: usize,
}

// The number that n bytes at a place of the header say, the highest first; 0 where the input ends before them.
fn number(s: &[u8], at: usize, n: usize) -> u64
    requires { (at ≤ 45) × (n ≤ 8) }
{
    match bits::read_bits(s, 8 * HEADER, 8 * at, 8 * n) {
        Some((v, _)) => v,
        None => 0,
    }
}

pub(crate) fn header(s: &[u8]) -> Request {
    Request {
        op: number(s, 0, 1),
        lo: number(s, 1, 8),
        hi: number(s, 9, 8),
        value: number(s, 17, 8),
        at: number(s, 25, 8) as usize,
        end: number(s, 33, 8) as usize,
        len: number(s, 41, 2) as usize,
        more: number(s, 43, 2) as usize,
    }
}
