// What a call without message data carries.
ghost use Rattle.std.specs.Prelude.{◌≡◌};
ghost use Rattle.step.specs.Call.{no_data};

use apdu::Data;
use pdus::Span;

pub fn no_data() -> Data
    ensures { result ≡ no_data }
{
    Data {
        identifier: None,
        message: None,
        check: Span { at: 0, count: 0 },
    }
}
