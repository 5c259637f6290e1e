// The front of a message: its header, and how many of its places are used.
ghost use Rattle.std.specs.Prelude.{◌≡◌, ◌<◌, ◌≤◌, length};
ghost use Rattle.layout.specs.Layout.{front_bytes, front_size, front_stands, header_of};

use crate::bytes::{flag_code, high, low, of_two};
use elements::values::Time;
use inner::values::{DateTime, Header};

pub(crate) fn load_header(b: &[u8]) -> Header
    requires { front_size ≤ length b.now }
    ensures { result ≡ header_of b.now }
{
    let year = of_two(b[3], b[4]);
    Header {
        identification: b[0],
        referenced: b[1] == 1,
        reference: b[2],
        dated: DateTime {
            year,
            month: b[5],
            day: b[6],
            time: Time {
                hours: b[7],
                minutes: b[8],
            },
            seconds: b[9],
        },
        acknowledged: b[10] == 1,
    }
}

#[tactic(auto, unfolding(crate::specs::Layout::front_stands))]
pub(crate) fn front_stands(b: &[u8]) -> bool
    requires { front_size ≤ length b.now }
    ensures { result ≡ front_stands b.now }
{
    b[1] < 2 && b[10] < 2
}

pub(crate) fn front_bytes(h: Header, count: usize) -> [u8; 12]
    requires { count < 256 }
    ensures { result ≡ front_bytes h count }
{
    let d = h.dated;
    let t = d.time;
    [
        h.identification,
        flag_code(h.referenced),
        h.reference,
        high(d.year as u64),
        low(d.year as u64),
        d.month,
        d.day,
        t.hours,
        t.minutes,
        d.seconds,
        flag_code(h.acknowledged),
        count as u8,
    ]
}
