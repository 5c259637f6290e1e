// The places of message data: as crate apdu says them, and as a content.
ghost use Rattle.std.specs.Prelude.{◌≡◌};
ghost use Rattle.protected.specs.Bodies.{content_of, data_of, part_of};

use apdu::Data;
use pdus::{Content, Span};

// Items of so many are none.
fn part_of(empty: usize, x: Span) -> Option<Span>
    ensures { result ≡ part_of empty x }
{
    if x.count == empty {
        return None;
    }
    Some(x)
}

pub(crate) fn data_of(c: Content) -> Data
    ensures { result ≡ data_of c }
{
    Data {
        identifier: part_of(0, c.identifier),
        message: part_of(Content::NONE, c.message),
        check: c.check,
    }
}

pub(crate) fn content_of(d: Data) -> Content
    ensures { result ≡ content_of d }
{
    Content {
        identifier: d.identifier.unwrap_or(Span { at: 0, count: 0 }),
        message: d.message.unwrap_or(Span {
            at: 0,
            count: Content::NONE,
        }),
        check: d.check,
    }
}
