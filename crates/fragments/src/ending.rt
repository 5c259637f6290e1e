// The input has ended: an envelope that is not finished is cut short.
ghost use Rattle.std.specs.Prelude.{◌≡◌};
ghost use Rattle.envelope.specs.Envelopes.{most_bits};
ghost use Rattle.fragments.specs.Record.{after, end_at};

use crate::stored::{Loaded, load};
use crate::taking::{is_unfinished, refuse};
use crate::{Taken, Untaken};
use envelope::EnvelopeRefusal;

#[tactic(auto, unfolding(crate::specs::Record::end_at, crate::specs::Record::cut_short))]
pub fn end(rec: &mut [u8]) -> Result<Taken, Untaken>
    ensures { after result rec.new ≡ end_at most_bits rec.old }
{
    let Loaded::Part(n, place) = load(rec)? else {
        return Ok(Taken::Part(0));
    };
    if n == 0 {
        return Ok(Taken::Part(0));
    }
    if is_unfinished(rec, n) {
        return refuse(rec, place, EnvelopeRefusal::Cut);
    }
    Err(Untaken::Shape)
}
