// What an unfinished envelope lacks.
ghost use Rattle.std.specs.Prelude.{◌≡◌};
ghost use Rattle.fragments.specs.Missing.{missing};

use envelope::groups::read_number;
use envelope::reading::bytes_for;

// The bytes that an unfinished envelope lacks before it can be read to another answer, at least.
pub(crate) fn lacking(s: &[u8]) -> usize
    ensures { result ≡ missing s.now }
{
    let Ok((_, p)) = read_number(s, 0) else {
        return 1;
    };
    let Ok((_, q)) = read_number(s, p) else {
        return 1;
    };
    let Ok((bits, t)) = read_number(s, q) else {
        return 1;
    };
    bytes_for(bits).saturating_sub(s.len() - t)
}
