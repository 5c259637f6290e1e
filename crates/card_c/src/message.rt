// The CPDLC message for the host: its bits read into a range of fixed layout (crate layout, specs/Layout.antt) and a text, and written from
// them.
ghost use Rattle.std.specs.Prelude.{◌≡◌};
ghost use Rattle.layout.specs.Calls.{read_call, sent, told, write_call};

// The message that the first `count` bits are: its values into `message`, its characters into the first bytes of `text`; how many
// characters, or the refusal.
#[unsafe(no_mangle)]
pub extern "C" fn peat_read_message(
    direction: u64,
    bits: &[u8],
    count: u64,
    message: &mut [u8],
    text: &mut [u8],
) -> u64
    ensures { told result message.new text.new ≡
        read_call direction bits.now count message.old text.old }
{
    card::peat_read_message(direction, bits, count, message, text)
}

// The bits of the message that `message` and `text` hold, from the first bit of `out` on; how many bits, or the refusal.
#[unsafe(no_mangle)]
pub extern "C" fn peat_write_message(
    direction: u64,
    message: &[u8],
    text: &[u8],
    out: &mut [u8],
) -> u64
    ensures { sent result out.new ≡ write_call direction message.now text.now out.old }
{
    card::peat_write_message(direction, message, text, out)
}
