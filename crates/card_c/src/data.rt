// The parts of message data that was delivered, taken out for the host.
ghost use Rattle.std.specs.Prelude.{◌≡◌};
ghost use Rattle.layout.specs.Calls.{sent};
ghost use Rattle.card.specs.Parts.{part_call};

// One part of message data as they were delivered: 0 the identifier, 1 the message, 2 the check.
#[unsafe(no_mangle)]
pub extern "C" fn peat_data_part(which: u64, delivered: &[u8], out: &mut [u8]) -> u64
    ensures { sent result out.new ≡ part_call out.old which delivered.now }
{
    card::peat_data_part(which, delivered, out)
}
