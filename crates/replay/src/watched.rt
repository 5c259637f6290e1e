// What the lines say that are no moves: the bits of a message, the reason of a refusal, the kind of an envelope, the book of message numbers, what a position
// shows. Each speaks of the last move of its host, and is held against what was said before. One range of numbers has a part for each side.
ghost use Rattle.std.specs.Prelude.{◌≡◌, false, not, cond, eqb, leb, ltb};
ghost use Rattle.replay.specs.Rules.{rule_number, number_of};
ghost use Rattle.replay.specs.Watched.{held, of_side, looked, kept, job_at, said_at, found_in, is_known, agrees_with, learned, about_job, bits_held, reason_held, posts_rule, is_open_in, marked, opens_held, is_heard, replies_held, closes_held, discards_held, saw, opened_held, closed_held, said_held, job_of, moved_on};

use crate::lines::Line;
use crate::page::{Place, get, put};
use crate::rules::Rule;

#[derive(Drop)]
pub struct Spot {}

impl Spot {
    pub const SIZE: usize = 65792;
    // the last move of the host: its word, and its job
    pub const WORD: usize = 0;

    pub const JOB: usize = 1;
    // a reply has named this number, which is not closed yet: one more than it; 0: none
    pub const REPLY: usize = 2;
    // 1: the position shows the dialogue as open
    pub const SHOWN: usize = 3;
    // 1: the dialogue was open since the position was shown that it is closed; 1: it was closed since the position was shown that it is open
    pub const WAS_OPEN: usize = 4;

    pub const WAS_CLOSED: usize = 5;
    // of a centre: its version; 1: it answers forwards
    pub const VERSION: usize = 6;

    pub const ANSWERS: usize = 7;
    // how many jobs there are of which something was said
    pub const KNOWN: usize = 8;
    // of each number of the book: the dialogue in which it is open, or 0
    pub const BOOK_AT: usize = 16;

    pub const NUMBERS: u64 = 64;
    // the jobs, and what was said of each: the digest of its message, or the reason of its refusal
    pub const JOBS_AT: usize = 128;

    pub const SAID_AT: usize = 16512;

    pub const KNOWN_MOST: u64 = 16384;
}

// The place of one side.
fn of_side(air: bool, at: usize) -> usize
    ensures { result ≡ of_side air at }
{
    if air || 32895 < at { at } else { at + 32896 }
}

pub(crate) fn look(w: &[u64], air: bool, at: usize) -> u64
    ensures { result ≡ looked w.now air at }
{
    get(w, of_side(air, at))
}

pub(crate) fn keep(w: &mut [u64], air: bool, at: usize, v: u64)
    ensures { w.new ≡ kept w.old air at v }
{
    put(w, of_side(air, at), v);
}

// ---- what was said of a job

// The i-th job of which something was said.
fn job_at(w: &[u64], air: bool, i: u64) -> u64
    ensures { result ≡ job_at w.now air i }
{
    if Spot::KNOWN_MOST <= i {
        return 0;
    }
    look(w, air, Spot::JOBS_AT + i as usize)
}

// What was said of it.
fn said_at(w: &[u64], air: bool, i: u64) -> u64
    ensures { result ≡ said_at w.now air i }
{
    if Spot::KNOWN_MOST <= i {
        return 0;
    }
    look(w, air, Spot::SAID_AT + i as usize)
}

// Which of the first n a job is; n where it is none.
fn find(w: &[u64], air: bool, job: u64, n: u64) -> u64
    ensures { result ≡ found_in w.now air job n }
{
    for i in 0..n {
        if job_at(w, air, i) == job {
            return i;
        }
    }
    n
}

fn is_known(w: &[u64], air: bool, job: u64) -> bool
    ensures { result ≡ is_known w.now air job }
{
    let n = look(w, air, Spot::KNOWN);
    find(w, air, job, n) < n
}

// Was this said of the job, or nothing?
fn agrees(w: &[u64], air: bool, job: u64, said: u64) -> bool
    ensures { result ≡ agrees_with w.now air job said }
{
    let n = look(w, air, Spot::KNOWN);
    !is_known(w, air, job) || said_at(w, air, find(w, air, job, n)) == said
}

#[tactic(auto, unfolding(crate::specs::Watched::learned))]
fn learn(w: &mut [u64], air: bool, job: u64, said: u64) -> Result<(), Rule>
    ensures { held (number_of result) w.new ≡ learned w.old air job said }
{
    if is_known(w, air, job) {
        return Ok(());
    }
    let n = look(w, air, Spot::KNOWN);
    if Spot::KNOWN_MOST <= n {
        return Err(Rule::Room);
    }
    keep(w, air, Spot::JOBS_AT + n as usize, job);
    keep(w, air, Spot::SAID_AT + n as usize, said);
    keep(w, air, Spot::KNOWN, n + 1);
    Ok(())
}

// What a line says of the job of a move. Behind the word `learns` it is learned; behind `checks` it is held against what the side `of` has learned.
#[tactic(auto, unfolding(crate::specs::Watched::about_job))]
fn about_job(
    w: &mut [u64],
    air: bool,
    of: bool,
    learns: u64,
    checks: u64,
    rule: Rule,
    said: u64,
) -> Result<(), Rule>
    ensures { held (number_of result) w.new ≡ about_job w.old air of learns checks (rule_number rule) said }
{
    let word = look(w, air, Spot::WORD);
    let job = look(w, air, Spot::JOB);
    if word == checks {
        return if agrees(w, of, job, said) {
            Ok(())
        } else {
            Err(rule)
        };
    }
    if word != learns {
        return Err(Rule::Behind);
    }
    if !agrees(w, air, job, said) {
        return Err(rule);
    }
    learn(w, air, job, said)
}

// The bits of a message: behind `takes` what was asked for, behind `hears-data` what was handed out.
fn bits(w: &mut [u64], air: bool, digest: u64) -> Result<(), Rule>
    ensures { held (number_of result) w.new ≡ bits_held w.old air digest }
{
    about_job(w, air, !air, 2, 34, Rule::Another, digest)
}

// The reason of a refusal: behind `refuses` why, behind `tells-refused` what is told.
fn reason(w: &mut [u64], air: bool, why: u64) -> Result<(), Rule>
    ensures { held (number_of result) w.new ≡ reason_held w.old air why }
{
    about_job(w, air, air, 3, 5, Rule::Fate, why)
}

// A message goes to its user as one that was delivered.
fn posts(w: &[u64], air: bool, kind: u64) -> Result<(), Rule>
    ensures { number_of result ≡ posts_rule w.now air kind }
{
    if look(w, air, Spot::WORD) != 19 {
        return Err(Rule::Behind);
    }
    if kind == 2 { Ok(()) } else { Err(Rule::Kind) }
}

// ---- the book. Its numbers are those of a dialogue: with the next one all of them are free.

fn is_open(w: &[u64], air: bool, dialogue: u64, number: u64) -> bool
    ensures { result ≡ is_open_in w.now air dialogue number }
{
    if Spot::NUMBERS <= number || dialogue == 0 {
        return false;
    }
    look(w, air, Spot::BOOK_AT + number as usize) == dialogue
}

fn mark(w: &mut [u64], air: bool, number: u64, dialogue: u64)
    ensures { w.new ≡ marked w.old air number dialogue }
{
    if number < Spot::NUMBERS {
        keep(w, air, Spot::BOOK_AT + number as usize, dialogue);
    }
}

#[tactic(auto, unfolding(crate::specs::Watched::opens_held))]
fn opens(w: &mut [u64], air: bool, dialogue: u64, number: u64) -> Result<(), Rule>
    ensures { held (number_of result) w.new ≡ opens_held w.old air dialogue number }
{
    if look(w, air, Spot::WORD) != 2 {
        return Err(Rule::Behind);
    }
    if Spot::NUMBERS <= number || is_open(w, air, dialogue, number) {
        return Err(Rule::Book);
    }
    mark(w, air, number, dialogue);
    Ok(())
}

fn is_heard(word: u64) -> bool
    ensures { result ≡ is_heard word }
{
    if 49 < word {
        word == 52 || word == 53
    } else {
        29 < word
    }
}

// A message that was heard names a number. If it is open, it is closed with it.
#[tactic(auto, unfolding(crate::specs::Watched::replies_held))]
fn replies(w: &mut [u64], air: bool, dialogue: u64, number: u64) -> Result<(), Rule>
    ensures { held (number_of result) w.new ≡ replies_held w.old air dialogue number }
{
    if !is_heard(look(w, air, Spot::WORD)) {
        return Err(Rule::Behind);
    }
    if look(w, air, Spot::REPLY) != 0 {
        return Err(Rule::Book);
    }
    if number < Spot::NUMBERS && is_open(w, air, dialogue, number) {
        keep(w, air, Spot::REPLY, number + 1);
    }
    Ok(())
}

#[tactic(auto, unfolding(crate::specs::Watched::closes_held))]
fn closes(w: &mut [u64], air: bool, number: u64) -> Result<(), Rule>
    ensures { held (number_of result) w.new ≡ closes_held w.old air number }
{
    if Spot::NUMBERS <= number || look(w, air, Spot::REPLY) != number + 1 {
        return Err(Rule::Book);
    }
    keep(w, air, Spot::REPLY, 0);
    mark(w, air, number, 0);
    Ok(())
}

// A position says that a number is free, without a reply.
#[tactic(auto, unfolding(crate::specs::Watched::discards_held))]
fn discards(w: &mut [u64], air: bool, dialogue: u64, number: u64) -> Result<(), Rule>
    ensures { held (number_of result) w.new ≡ discards_held w.old air dialogue number }
{
    if look(w, air, Spot::REPLY) != 0 || !is_open(w, air, dialogue, number) {
        return Err(Rule::Book);
    }
    mark(w, air, number, 0);
    Ok(())
}

// ---- what a position shows

// An end without the carrier is closed, or will be.
fn see(w: &mut [u64], p: &[u64], air: bool)
    ensures { w.new ≡ saw w.old p.now air }
{
    let spot = if get(p, Place::POWER) != 0 || get(p, Place::STATE) == 0 {
        Spot::WAS_CLOSED
    } else {
        Spot::WAS_OPEN
    };
    keep(w, air, spot, 1);
}

#[tactic(auto, unfolding(crate::specs::Watched::opened_held))]
fn opened(w: &mut [u64], here: &[u64], air: bool) -> Result<(), Rule>
    ensures { held (number_of result) w.new ≡ opened_held w.old here.now air }
{
    if look(w, air, Spot::SHOWN) != 0 || look(w, air, Spot::WAS_OPEN) == 0 {
        return Err(Rule::Position);
    }
    keep(w, air, Spot::SHOWN, 1);
    keep(w, air, Spot::WAS_CLOSED, 0);
    see(w, here, air);
    Ok(())
}

#[tactic(auto, unfolding(crate::specs::Watched::closed_held))]
fn closed(w: &mut [u64], here: &[u64], air: bool) -> Result<(), Rule>
    ensures { held (number_of result) w.new ≡ closed_held w.old here.now air }
{
    if look(w, air, Spot::SHOWN) == 0 || look(w, air, Spot::WAS_CLOSED) == 0 {
        return Err(Rule::Position);
    }
    keep(w, air, Spot::SHOWN, 0);
    keep(w, air, Spot::WAS_OPEN, 0);
    see(w, here, air);
    Ok(())
}

// ---- a line

pub(crate) fn is_said(word: u64) -> bool
    ensures { result ≡ cond (leb 40 word) (ltb word 50) false }
{
    40 <= word && word < 50
}

// One of these lines; `here` is the page of its side.
#[tactic(auto, unfolding(crate::specs::Watched::said_held))]
pub(crate) fn says(w: &mut [u64], here: &[u64], l: Line) -> Result<(), Rule>
    ensures { held (number_of result) w.new ≡ said_held w.old here.now l.air l.word l.a }
{
    let dialogue = get(here, Place::NUMBER);
    match l.word {
        40 => bits(w, l.air, l.a),
        41 => reason(w, l.air, l.a),
        42 => posts(w, l.air, l.a),
        43 => opens(w, l.air, dialogue, l.a),
        44 => replies(w, l.air, dialogue, l.a),
        45 => closes(w, l.air, l.a),
        46 => discards(w, l.air, dialogue, l.a),
        47 => opened(w, here, l.air),
        _ => closed(w, here, l.air),
    }
}

// The number that a reply has named is to be closed before the host's next move.
pub(crate) fn owes(w: &[u64], air: bool) -> bool
    ensures { result ≡ not (eqb (looked w.now air 2) 0) }
{
    look(w, air, Spot::REPLY) != 0
}

// The job of a move.
fn job_of(l: Line) -> u64
    ensures { result ≡ job_of l.word l.a l.b l.c }
{
    match l.word {
        2 | 3 => l.a,
        5 => l.b,
        34 => l.c,
        _ => 0,
    }
}

// A move was made. The failure of the carrier is one at both ends.
pub(crate) fn moved(w: &mut [u64], air: &[u64], ground: &[u64], l: Line)
    ensures { w.new ≡ moved_on w.old air.now ground.now l.air l.word (job_of l.word l.a l.b l.c) }
{
    keep(w, l.air, Spot::WORD, l.word);
    keep(w, l.air, Spot::JOB, job_of(l));
    see(w, air, true);
    see(w, ground, false);
}
