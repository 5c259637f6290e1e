// The forward service: the request of the sending centre, and the parts of the message that a receiving centre was delivered.
ghost use Rattle.std.specs.Prelude.{◌≡◌};
ghost use Rattle.apdu.specs.Headings.{triple};
ghost use Rattle.card.specs.Forwarding.{forward_part_call, opened, read_forward};
ghost use Rattle.layout.specs.Calls.{sent};
ghost use Rattle.step.specs.Call.{called, forward_call};

// CPDLC-forward request, which brings a dialogue number as a start does. The flight identification is the count of its characters, and they
// as one number, seven bits each, the first on top; the direction says what the message's bits are (0 uplink, 1 downlink); they stand in
// msgs from the first on, and `message` says how many.
#[unsafe(no_mangle)]
pub extern "C" fn peat_forward_request(
    rec: &mut [u8],
    number: u64,
    class: u64,
    security: u64,
    year: u64,
    month: u64,
    day: u64,
    hours: u64,
    minutes: u64,
    seconds: u64,
    characters: u64,
    flight: u64,
    address: u64,
    direction: u64,
    msgs: &[u8],
    message: u64,
    first: &mut [u8],
    second: &mut [u8],
) -> u64
    ensures { called result rec.new first.new second.new ≡
        forward_call rec.old first.old second.old class security number msgs.now
        (record {
          heading = record {
            date = triple year month day;
            time = triple hours minutes seconds;
            characters = characters;
            flight = flight;
            address = address;
            direction = direction;
          };
          message = record { at = 0; count = message };
        }) }
{
    card::peat_forward_request(
        rec, number, class, security, year, month, day, hours, minutes, seconds, characters,
        flight, address, direction, msgs, message, first, second,
    )
}

// One part of a forward message as it was delivered.
#[unsafe(no_mangle)]
pub extern "C" fn peat_forward_part(which: u64, delivered: &[u8], out: &mut [u8]) -> u64
    ensures { sent result out.new ≡ forward_part_call out.old which delivered.now }
{
    card::peat_forward_part(which, delivered, out)
}

// All parts of a forward message of an application type (2, 22) as it was delivered: the numbers into the lent range of eighty bytes, the message's bits
// into the buffer.
#[unsafe(no_mangle)]
pub extern "C" fn peat_read_forward(
    delivered: &[u8],
    heading: &mut [u8],
    out: &mut [u8],
    application: u64,
) -> u64
    ensures { opened result heading.new out.new ≡ read_forward heading.old out.old delivered.now application }
{
    card::peat_read_forward(delivered, heading, out, application)
}
