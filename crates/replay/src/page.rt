// What is held of one end and its host, in one range of numbers: the record, its power, and four lists. A list has its count, and its places from a first one on.
// Nothing here is refused but what finds no room; that ends the run.
// It is a range of numbers and no struct: the theorem of crate tables_laws is about the places of a page (specs/Tables of crate tables).
ghost use Rattle.std.specs.Prelude.{◌≡◌, is_ok, eqb, get_or, set};
ghost use Rattle.tables.specs.Tables.{left, state_of, held_in, holding, pushed, member, among, noted, is_noted, told, entry_in, set_entry, put_on_line, counted_if, settled, stays_of, trimmed, is_start_of, start_in, drawn, removed, mark_broken, marked_line};

use crate::rules::Full;
use control::{Control, State};
use moves::Held;

#[derive(Drop)]
pub struct Place {}

impl Place {
    pub const SIZE: usize = 53264;

    pub const STATE: usize = 0;

    pub const DSC: usize = 1;

    pub const NUMBER: usize = 2;

    pub const HIGHEST: usize = 3;
    // 0: up; 1: up without the carrier; 2: down
    pub const POWER: usize = 4;
    // 1: a message was handed out that the user has not been shown
    pub const WAITING: usize = 5;
    // how many of the youngest entries of the line have not left
    pub const UNSENT: usize = 6;

    pub const ENTRIES: usize = 7;

    pub const DECIDED: usize = 8;

    pub const OPENED: usize = 9;

    pub const NOTICES: usize = 10;
    // the line that leaves the end, oldest first: kind, number of the dialogue and job of each
    pub const LINE_AT: usize = 16;

    pub const LINE_MOST: u64 = 1024;
    // the jobs that were decided
    pub const DECIDED_AT: usize = 3088;

    pub const DECIDED_MOST: u64 = 16384;
    // the open jobs
    pub const OPENED_AT: usize = 19472;

    pub const OPENED_MOST: u64 = 1024;
    // job and fate of each notice
    pub const NOTICES_AT: usize = 20496;

    pub const NOTICES_MOST: u64 = 16384;
}

#[derive(Drop)]
pub struct Fate {}

impl Fate {
    pub const REFUSED: u64 = 1;

    pub const ENDED: u64 = 2;

    pub const BROKEN: u64 = 3;
}

pub(crate) fn get(p: &[u64], at: usize) -> u64
    ensures { result ≡ get_or p.now at 0 }
{
    if at < p.len() {
        return p[at];
    }
    0
}

pub(crate) fn put(p: &mut [u64], at: usize, v: u64)
    ensures { p.new ≡ set p.old at v }
{
    if at < p.len() {
        p[at] = v;
    }
}

// ---- the record

fn state_of(code: u64) -> State
    ensures { result ≡ state_of code }
{
    match code {
        0 => State::Idle,
        1 => State::StartReq,
        2 => State::StartInd,
        3 => State::Dialogue,
        4 => State::End,
        _ => State::Forward,
    }
}

#[tactic(auto, unfolding(tables::specs::Tables::held_in))]
pub(crate) fn held(p: &[u64]) -> Held
    ensures { result ≡ held_in p.now }
{
    Held {
        control: Control {
            state: state_of(get(p, Place::STATE)),
            dsc: get(p, Place::DSC) == 1,
        },
        number: get(p, Place::NUMBER),
        highest: get(p, Place::HIGHEST),
    }
}

#[tactic(auto, unfolding(tables::specs::Tables::holding))]
pub(crate) fn hold(p: &mut [u64], r: Held)
    ensures { p.new ≡ holding p.old r }
{
    put(p, Place::STATE, u64::from(r.control.state));
    put(p, Place::DSC, u64::from(r.control.dsc));
    put(p, Place::NUMBER, r.number);
    put(p, Place::HIGHEST, r.highest);
}

pub(crate) fn is_idle(p: &[u64]) -> bool
    ensures { result ≡ eqb (get_or p.now 0 0) 0 }
{
    get(p, Place::STATE) == 0
}

// ---- lists

// The i-th from a place on.
fn at(p: &[u64], from: usize, i: u64) -> u64
    ensures { result ≡ member p.now from i }
{
    if 4294967296 < from || 4294967296 < i {
        return 0;
    }
    get(p, from + i as usize)
}

// Is x among the first so many from a place on?
pub(crate) fn is_among(p: &[u64], from: usize, count: u64, x: u64) -> bool
    ensures { result ≡ among p.now from count x }
{
    for i in 0..count {
        if at(p, from, i) == x {
            return true;
        }
    }
    false
}

// One behind the others.
#[tactic(auto, unfolding(tables::specs::Tables::pushed))]
pub(crate) fn push(
    p: &mut [u64],
    counter: usize,
    from: usize,
    most: u64,
    x: u64,
) -> Result<(), Full>
    ensures { left (is_ok result) p.new ≡ pushed p.old counter from most x }
{
    let n = get(p, counter);
    if most <= n || 4294967296 < from || 4294967296 < n {
        return Err(Full {});
    }
    put(p, from + n as usize, x);
    put(p, counter, n + 1);
    Ok(())
}

pub(crate) fn is_decided(p: &[u64], job: u64) -> bool
    ensures { result ≡ among p.now 3088 (get_or p.now 8 0) job }
{
    is_among(p, Place::DECIDED_AT, get(p, Place::DECIDED), job)
}

#[tactic(auto, unfolding(tables::specs::Tables::pushed))]
pub(crate) fn decide(p: &mut [u64], job: u64) -> Result<(), Full>
    ensures { left (is_ok result) p.new ≡ pushed p.old 8 3088 16384 job }
{
    push(
        p,
        Place::DECIDED,
        Place::DECIDED_AT,
        Place::DECIDED_MOST,
        job,
    )
}

#[tactic(auto, unfolding(tables::specs::Tables::pushed))]
pub(crate) fn open_job(p: &mut [u64], job: u64) -> Result<(), Full>
    ensures { left (is_ok result) p.new ≡ pushed p.old 9 19472 1024 job }
{
    push(p, Place::OPENED, Place::OPENED_AT, Place::OPENED_MOST, job)
}

// ---- notices

#[tactic(auto, unfolding(tables::specs::Tables::noted))]
pub(crate) fn note(p: &mut [u64], job: u64, fate: u64) -> Result<(), Full>
    ensures { left (is_ok result) p.new ≡ noted p.old job fate }
{
    let n = get(p, Place::NOTICES);
    if Place::NOTICES_MOST <= n {
        return Err(Full {});
    }
    let at = Place::NOTICES_AT + 2 * n as usize;
    put(p, at, job);
    put(p, at + 1, fate);
    put(p, Place::NOTICES, n + 1);
    Ok(())
}

// The notice of a number, from 1 on, is this one.
#[tactic(auto, unfolding(tables::specs::Tables::is_noted))]
pub(crate) fn is_noted(p: &[u64], number: u64, job: u64, fate: u64) -> bool
    ensures { result ≡ is_noted p.now number job fate }
{
    if number == 0 || get(p, Place::NOTICES) < number || Place::NOTICES_MOST < number {
        return false;
    }
    let at = Place::NOTICES_AT + 2 * (number - 1) as usize;
    get(p, at) == job && get(p, at + 1) == fate
}

// Every open job gets its fate.
#[tactic(auto, using(crate::proofs::Breaks::broken))]
pub(crate) fn tell(p: &mut [u64], fate: u64) -> Result<(), Full>
    ensures { left (is_ok result) p.new ≡ told p.old fate }
{
    let n = get(p, Place::OPENED);
    for i in 0..n {
        if Place::OPENED_MOST <= i {
            return Err(Full {});
        }
        let job = get(p, Place::OPENED_AT + i as usize);
        note(p, job, fate)?;
    }
    put(p, Place::OPENED, 0);
    Ok(())
}

// ---- the line

// A field of an entry: 0 its kind, 1 its number, 2 its job.
#[tactic(auto, unfolding(tables::specs::Tables::entry_in))]
pub(crate) fn entry(p: &[u64], i: u64, field: usize) -> u64
    ensures { result ≡ entry_in p.now i field }
{
    if Place::LINE_MOST <= i || 2 < field {
        return 0;
    }
    get(p, Place::LINE_AT + 3 * i as usize + field)
}

#[tactic(auto, unfolding(tables::specs::Tables::set_entry))]
fn set_entry(p: &mut [u64], i: u64, kind: u64, number: u64, job: u64)
    ensures { p.new ≡ set_entry p.old i kind number job }
{
    if i < Place::LINE_MOST {
        let at = Place::LINE_AT + 3 * i as usize;
        put(p, at, kind);
        put(p, at + 1, number);
        put(p, at + 2, job);
    }
}

// An entry goes behind the others. It has not left.
#[tactic(auto, unfolding(tables::specs::Tables::put_on_line))]
pub(crate) fn put_on_line(p: &mut [u64], kind: u64, number: u64, job: u64) -> Result<(), Full>
    ensures { left (is_ok result) p.new ≡ put_on_line p.old kind number job }
{
    let n = get(p, Place::ENTRIES);
    let unsent = get(p, Place::UNSENT);
    if Place::LINE_MOST <= n || Place::LINE_MOST <= unsent {
        return Err(Full {});
    }
    set_entry(p, n, kind, number, job);
    put(p, Place::ENTRIES, n + 1);
    put(p, Place::UNSENT, unsent + 1);
    Ok(())
}

// A count that does not go past the largest number.
fn counted(n: u64, yes: bool) -> u64
    ensures { result ≡ counted_if n yes }
{
    if yes && n <= 4294967296 { n + 1 } else { n }
}

// An entry that stays goes to its new place.
#[tactic(auto, unfolding(tables::specs::Tables::settled))]
fn settle(p: &mut [u64], i: u64, to: u64, stays: bool)
    ensures { p.new ≡ settled p.old i to stays }
{
    if stays {
        set_entry(p, to, entry(p, i, 0), entry(p, i, 1), entry(p, i, 2));
    }
}

// Does an entry stay? of: it is of the dialogue; met: so many of it stood before it.
fn may_stay(of: bool, met: u64, left: u64) -> bool
    ensures { result ≡ stays_of of met left }
{
    !of || met < left
}

// Of the entries of a dialogue the first so many are left.
pub(crate) fn trim(p: &mut [u64], number: u64, left: u64)
    ensures { p.new ≡ trimmed p.old number left }
{
    let n = get(p, Place::ENTRIES);
    let mut kept: u64 = 0;
    let mut met: u64 = 0;
    for i in 0..n {
        let of = entry(p, i, 1) == number;
        let stays = may_stay(of, met, left);
        settle(p, i, kept, stays);
        kept = counted(kept, stays);
        met = counted(met, of);
    }
    put(p, Place::ENTRIES, kept);
}

// Is an entry the start of a dialogue?
fn is_start_of(p: &[u64], i: u64, number: u64) -> bool
    ensures { result ≡ is_start_of p.now i number }
{
    entry(p, i, 0) < 2 && entry(p, i, 1) == number
}

// Where the start of a dialogue is on the line; or the count of entries.
pub(crate) fn start_at(p: &[u64], number: u64) -> u64
    ensures { result ≡ start_in p.now number }
{
    let n = get(p, Place::ENTRIES);
    for i in 0..n {
        if is_start_of(p, i, number) {
            return i;
        }
    }
    n
}

// The entry behind a place comes to it.
#[tactic(auto, unfolding(tables::specs::Tables::drawn))]
fn draw(p: &mut [u64], i: u64)
    ensures { p.new ≡ drawn p.old i }
{
    if Place::LINE_MOST <= i {
        return;
    }
    set_entry(
        p,
        i,
        entry(p, i + 1, 0),
        entry(p, i + 1, 1),
        entry(p, i + 1, 2),
    );
}

// The entry at a place is gone.
pub(crate) fn remove(p: &mut [u64], at: u64)
    ensures { p.new ≡ removed p.old at }
{
    let n = get(p, Place::ENTRIES);
    if n <= at {
        return;
    }
    for i in at..n {
        draw(p, i);
    }
    put(p, Place::ENTRIES, n - 1);
}

// ---- the numbers of the dialogues that broke: a count and the numbers behind it

pub(crate) fn is_broken(b: &[u64], number: u64) -> bool
    ensures { result ≡ among b.now 1 (get_or b.now 0 0) number }
{
    is_among(b, 1, get(b, 0), number)
}

#[tactic(auto, unfolding(tables::specs::Tables::mark_broken))]
pub(crate) fn mark_broken(b: &mut [u64], number: u64) -> Result<(), Full>
    ensures { left (is_ok result) b.new ≡ mark_broken b.old number }
{
    if is_broken(b, number) {
        return Ok(());
    }
    push(b, 0, 1, 4096, number)
}

// Each dialogue that has an entry on the line is broken.
#[tactic(auto, using(crate::proofs::Breaks::broken))]
pub(crate) fn mark_line(b: &mut [u64], p: &[u64]) -> Result<(), Full>
    ensures { left (is_ok result) b.new ≡ marked_line b.old p.now }
{
    let n = get(p, Place::ENTRIES);
    for i in 0..n {
        mark_broken(b, entry(p, i, 1))?;
    }
    Ok(())
}
