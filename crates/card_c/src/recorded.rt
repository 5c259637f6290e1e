// An APDU by itself, as it was recorded: what it is, or where it is at fault. No machine is asked.
ghost use Rattle.std.specs.Prelude.{◌≡◌};
ghost use Rattle.card.specs.Recorded.{apdu_call};
ghost use Rattle.quick.specs.Leading.{leading_call};

// The APDU that the lent bytes are, read as the type that a number names: its alternative, its reason or mode, and whether there is message
// data.
#[unsafe(no_mangle)]
pub extern "C" fn peat_read_apdu(which: u64, bytes: &[u8]) -> u64
    ensures { result ≡ apdu_call which bytes.now }
{
    card::peat_read_apdu(which, bytes)
}

// What the APDU that the lent bytes are is, from its leading fields alone: its alternative, and the mode of a start. What follows is not looked
// at.
#[unsafe(no_mangle)]
pub extern "C" fn peat_read_leading(which: u64, bytes: &[u8]) -> u64
    ensures { result ≡ leading_call which bytes.now }
{
    card::peat_read_leading(which, bytes)
}
