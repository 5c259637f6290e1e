// What a call is refused for, and the number that it answers the host.
ghost use Rattle.std.specs.Prelude.{◌≡◌};
ghost use Rattle.step.specs.Call.{answer_number, call_refusal};

use machine::outcome::StepRefusal;
use words::Limit;

// Room: a lent buffer is too short. Else what the step refuses for, Shape also where the bytes are no record.
#[derive(Clone, Copy, Drop)]
pub(crate) enum CallRefusal {
    Room,
    Step(StepRefusal),
}

impl CallRefusal {
    pub(crate) fn number(self) -> u64
        ensures { result ≡ call_refusal self }
    {
        match self {
            CallRefusal::Room => Limit::ROOM,
            CallRefusal::Step(why) => StepRefusal::number(Some(why)),
        }
    }
}

// The number of what was taken, or of the refusal.
pub(crate) fn answer_number(r: Result<u64, CallRefusal>) -> u64
    ensures { result ≡ answer_number r }
{
    match r {
        Ok(n) => n,
        Err(why) => why.number(),
    }
}
