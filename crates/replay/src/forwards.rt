// One move of two centres, beside the model of crate forward_duties: all forwards go one way. A record is IDLE or FORWARD, and the one that gets forwards stays
// IDLE. The pages are those of the two ends of a dialogue. An error is the rule that the move breaks.
ghost use Rattle.std.specs.Prelude.{◌≡◌};
ghost use Rattle.replay.specs.Rules.{number_of};
ghost use Rattle.replay.specs.Watched.{held};
ghost use Rattle.replay.specs.Centres.{result_of, is_awaited, first_rule, forward_held};

use crate::lines::Line;
use crate::page::{
    Fate, Place, decide, entry, get, is_decided, open_job, put, put_on_line, remove, start_at,
    tell, trim,
};
use crate::rules::Rule;
use crate::steps;
use crate::steps::ready;
use crate::watched::{Spot, keep, look};

#[derive(Drop)]
pub struct Link {}

impl Link {
    // the state of a record whose forward has no answer yet
    pub const FORWARD: u64 = 5;
    // an answer on the line, and the fate of the job that it tells: this and its result
    pub const ANSWER: u64 = 9;

    pub const ANSWERED: u64 = 4;
}

// A centre by its record: number, version, whether it answers forwards. The one that forwards comes first, with no lower number than the other.
pub(crate) fn join(here: &mut [u64], w: &mut [u64], l: Line) {
    put(here, Place::NUMBER, l.a);
    keep(w, l.air, Spot::VERSION, l.b);
    keep(w, l.air, Spot::ANSWERS, l.c);
}

// ---- the centre that forwards

// What was taken is not forwarded again.
#[tactic(auto, using(crate::proofs::Breaks::broken), unfolding(crate::specs::Centres::forward_held))]
fn forward(here: &mut [u64], may: bool, job: u64, number: u64) -> Result<(), Rule>
    ensures { held (number_of result) here.new ≡ forward_held here.old may job number }
{
    ready(here)?;
    if !may {
        return Err(Rule::Number);
    }
    if is_decided(here, job) {
        return Err(Rule::Counted);
    }
    if number <= get(here, Place::NUMBER) {
        return Err(Rule::Number);
    }
    if get(here, Place::STATE) != 0 {
        return Err(Rule::Card);
    }
    decide(here, job)?;
    open_job(here, job)?;
    put(here, Place::NUMBER, number);
    put(here, Place::STATE, Link::FORWARD);
    Ok(put_on_line(here, 0, number, job)?)
}

// The forward is over, and its job has its fate.
fn settle(here: &mut [u64], fate: u64) -> Result<(), Rule> {
    put(here, Place::STATE, 0);
    Ok(tell(here, fate)?)
}

fn abort(here: &mut [u64], left: u64) -> Result<(), Rule> {
    ready(here)?;
    if get(here, Place::STATE) != Link::FORWARD {
        return Err(Rule::Card);
    }
    let number = get(here, Place::NUMBER);
    trim(here, number, left);
    put_on_line(here, 8, number, 0)?;
    settle(here, Fate::BROKEN)
}

fn error(here: &mut [u64], left: u64) -> Result<(), Rule> {
    if get(here, Place::POWER) == 2 {
        return Err(Rule::Restart);
    }
    if get(here, Place::STATE) == 0 || get(here, Place::POWER) != 0 {
        return Ok(());
    }
    abort(here, left)
}

// The carrier removes the start and turns it away.
fn turn_back(here: &mut [u64]) -> Result<(), Rule> {
    ready(here)?;
    let at = start_at(here, get(here, Place::NUMBER));
    if get(here, Place::STATE) != Link::FORWARD || get(here, Place::ENTRIES) <= at {
        return Err(Rule::Carrier);
    }
    remove(here, at);
    settle(here, Fate::BROKEN)
}

// ---- what is handed over

// The first on the other centre's line that has left is one of these kinds.
#[tactic(auto, using(crate::proofs::Breaks::broken), unfolding(tables::specs::Steps::first_rule))]
fn check_first(
    here: &[u64],
    there: &[u64],
    lowest: u64,
    highest: u64,
    number: u64,
) -> Result<(), Rule>
    ensures { number_of result ≡ first_rule here.now there.now lowest highest number }
{
    ready(here)?;
    if get(there, Place::ENTRIES) <= get(there, Place::UNSENT) {
        return Err(Rule::Once);
    }
    let first = entry(there, 0, 0);
    if first < lowest || highest < first {
        return Err(Rule::Once);
    }
    if entry(there, 0, 1) != number {
        return Err(Rule::Number);
    }
    Ok(())
}

// How a forward is answered: the service is not supported, the versions are not equal, success.
fn result(answers: u64, own: u64, version: u64) -> u64
    ensures { result ≡ result_of answers own version }
{
    if answers == 0 {
        1
    } else if own == version {
        0
    } else {
        2
    }
}

// Its message is for the user. A number that is not above the record's is of an old forward.
fn answer(here: &mut [u64], number: u64, res: u64) -> Result<(), Rule> {
    if number <= get(here, Place::NUMBER) {
        return Ok(());
    }
    put(here, Place::NUMBER, number);
    if res == 0 {
        put(here, Place::WAITING, 1);
        return Ok(put_on_line(here, Link::ANSWER, number, 0)?);
    }
    if 2 < res {
        return Err(Rule::Card);
    }
    Ok(put_on_line(here, Link::ANSWER + res, number, 0)?)
}

fn hear_forward(
    here: &mut [u64],
    there: &mut [u64],
    w: &[u64],
    may: bool,
    l: Line,
) -> Result<(), Rule> {
    if may {
        return Err(Rule::Expected);
    }
    check_first(here, there, 0, 1, l.a)?;
    if look(w, !l.air, Spot::VERSION) != l.b {
        return Err(Rule::Whole);
    }
    remove(there, 0);
    let answers = look(w, l.air, Spot::ANSWERS);
    let own = look(w, l.air, Spot::VERSION);
    answer(here, l.a, result(answers, own, l.b))
}

// It is of the forward that waits.
fn is_awaited(here: &[u64], number: u64) -> bool
    ensures { result ≡ is_awaited here.now number }
{
    get(here, Place::STATE) == Link::FORWARD && get(here, Place::NUMBER) == number
}

fn hear_answer(here: &mut [u64], there: &mut [u64], number: u64) -> Result<(), Rule> {
    check_first(here, there, Link::ANSWER, Link::ANSWER + 2, number)?;
    let kind = entry(there, 0, 0);
    remove(there, 0);
    if !is_awaited(here, number) {
        return Ok(());
    }
    if kind < Link::ANSWER || Link::ANSWER + 2 < kind {
        return Err(Rule::Card);
    }
    settle(here, Link::ANSWERED + (kind - Link::ANSWER))
}

fn hear_abort(here: &mut [u64], there: &mut [u64], number: u64) -> Result<(), Rule> {
    check_first(here, there, 8, 8, number)?;
    remove(there, 0);
    if is_awaited(here, number) {
        settle(here, Fate::BROKEN)
    } else {
        Ok(())
    }
}

// ---- the hosts

// The answer leaves when its user has the message.
fn leave(here: &mut [u64]) -> Result<(), Rule> {
    ready(here)?;
    steps::leave(here)
}

// What has not left does not leave any more.
fn cut_off(here: &mut [u64]) -> Result<(), Rule> {
    if get(here, Place::POWER) == 1 {
        return Ok(());
    }
    put(here, Place::POWER, 1);
    Ok(tell(here, Fate::BROKEN)?)
}

fn publish(here: &[u64], number: u64, job: u64, res: u64) -> Result<(), Rule> {
    if 2 < res {
        return steps::publish(here, number, job, 0);
    }
    steps::publish(here, number, job, Link::ANSWERED + res)
}

// ---- a line

fn job(here: &mut [u64], may: bool, l: Line) -> Result<(), Rule> {
    let word = l.word;
    match word {
        3 => steps::refuse(here, l.a),
        4 => steps::acknowledge(here, l.a),
        5 => steps::publish(here, l.a, l.b, Fate::REFUSED),
        6 => steps::publish(here, l.a, l.b, Fate::ENDED),
        7 => steps::publish(here, l.a, l.b, Fate::BROKEN),
        51 => forward(here, may, l.a, l.b),
        54 => publish(here, l.a, l.b, l.c),
        _ => Err(Rule::Card),
    }
}

fn host(here: &mut [u64], there: &mut [u64], broken: &mut [u64], l: Line) -> Result<(), Rule> {
    let word = l.word;
    match word {
        15 | 16 => abort(here, l.a),
        17 => error(here, l.a),
        18 => turn_back(here),
        19 => steps::shown(here),
        20 => leave(here),
        21 => Err(Rule::Fate),
        22 => steps::give_up(here),
        23 => steps::fail_power(here),
        24 => cut_off(here),
        25 => steps::fail_carrier(here, there, broken),
        26 => steps::show_record(here, l.a, l.b, l.c, l.d),
        27 => steps::show_quiet(here, there),
        _ => Err(Rule::Card),
    }
}

// The centre whose host makes the move comes first; may: it is the one that forwards.
pub(crate) fn move_on(
    here: &mut [u64],
    there: &mut [u64],
    broken: &mut [u64],
    w: &[u64],
    may: bool,
    l: Line,
) -> Result<(), Rule> {
    let word = l.word;
    match word {
        38 => hear_abort(here, there, l.a),
        52 => hear_forward(here, there, w, may, l),
        53 => hear_answer(here, there, l.a),
        _ => other(here, there, broken, may, l),
    }
}

fn other(
    here: &mut [u64],
    there: &mut [u64],
    broken: &mut [u64],
    may: bool,
    l: Line,
) -> Result<(), Rule> {
    if 14 < l.word && l.word < 28 {
        return host(here, there, broken, l);
    }
    job(here, may, l)
}
