// A fresh record in a lent range.
ghost use Rattle.std.specs.Prelude.{◌≡◌};
ghost use Rattle.card.specs.Face.{fresh_call, made};

// A fresh record for a side (1 air, 2 ground), with the security value that local policy accepts, whether forwarding is supported (0, 1),
// the own version (1 to 255), and the application type (2, 22).
#[unsafe(no_mangle)]
pub extern "C" fn peat_fresh(
    rec: &mut [u8],
    side: u64,
    policy: u64,
    forwards: u64,
    version: u64,
    application: u64,
) -> u64
    ensures { made result rec.new ≡ fresh_call rec.old side policy forwards version application }
{
    card::peat_fresh(rec, side, policy, forwards, version, application)
}
