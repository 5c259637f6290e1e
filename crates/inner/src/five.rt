// The elements of a message, laid into its five places in order.
ghost use Rattle.std.specs.Prelude.{◌≡◌, ◌≤◌};
ghost use Rattle.bits.specs.Bits.{bits_to};
ghost use Rattle.inner.specs.Places.{laid, row_at};

use elements::reading::read_element;
use elements::values::Element;
use fields::Reading;
use kinds::Direction;

// The n elements at a place, at most five.
pub(crate) fn read_places(
    direction: Direction,
    s: &[u8],
    end: usize,
    at: usize,
    n: usize,
) -> Reading<[Element; 5]>
    requires { n ≤ 5 }
    ensures { result ≡ laid (row_at direction (bits_to s.now end) at n) }
{
    let mut places = [Element::EMPTY; 5];
    let mut p = at;
    for i in 0..n {
        (places[i], p) = read_element(direction, s, end, p)?;
    }
    Ok((places, p))
}
