// Replays a recorded day of two hosts on the model of their duties (docs/HOST.md, "A recorded day"):
//
//     replay FILE
//
// Each line of FILE is a move of one of the two hosts, or shows something of it. The program makes the same moves on the model of which the theorem of the
// duties holds, and names the first line that the model does not make, with the rule that it breaks; or says that every line is a move of the model.
// A line has at most 127 bytes.
#![tactic(auto)]

mod forwards;
mod lines;
mod page;
mod rules;
mod steps;
mod watched;

ghost use Rattle.std.specs.Prelude.{◌≤◌, length};

use control::{Call, Reply, Side};
use lines::Line;
use page::{Fate, Place, get, put};
use rules::{Rule, say_rule};
use std::env::FillError;
use std::fs::File;
use std::io;
use std::rt::{Env, Files};
use std::str::from_utf8;

fn new_page() -> [u64; 53264] {
    [0u64; 53264]
}

fn new_broken() -> [u64; 4097] {
    [0u64; 4097]
}

fn new_watch() -> [u64; 65792] {
    [0u64; 65792]
}

// What cannot be written is left out, as to a reader that is gone.
fn say(rt: &impl Print, words: &[u8]) {
    let _ = rt.write_all(words);
}

// The bytes of one read.
fn chunk_buffer() -> [u8; 65536] {
    [0u8; 65536]
}

// The longest path that is opened.
fn path_buffer() -> [u8; 4096] {
    [0u8; 4096]
}

// ---- one line

fn side_of(air: bool) -> Side {
    if air { Side::Air } else { Side::Ground }
}

// Whether a host's call sets or asks for DSC: what the record holds.
fn dsc(here: &[u64]) -> bool {
    get(here, Place::DSC) == 1
}

fn call(here: &mut [u64], broken: &mut [u64], l: Line) -> Result<(), Rule> {
    let side = side_of(l.air);
    let d = dsc(here);
    let word = l.word;
    match word {
        10 => steps::make_call(
            here,
            broken,
            side,
            Call::StartResponse(d, Reply::Accepted),
            0,
        ),
        11 => steps::make_call(
            here,
            broken,
            side,
            Call::StartResponse(d, Reply::Rejected),
            0,
        ),
        12 => steps::make_call(here, broken, side, Call::EndRequest(d), 0),
        13 => steps::make_call(here, broken, side, Call::EndResponse(d, Reply::Accepted), 0),
        14 => steps::make_call(here, broken, side, Call::EndResponse(d, Reply::Rejected), 0),
        15 => steps::make_call(here, broken, side, Call::UserAbort, l.a),
        16 => steps::make_call(here, broken, side, Call::TimerExpiry, l.a),
        17 => steps::error(here, broken, side, l.a),
        _ => steps::turn_back(here, side),
    }
}

fn host(here: &mut [u64], there: &mut [u64], broken: &mut [u64], l: Line) -> Result<(), Rule> {
    let word = l.word;
    match word {
        19 => steps::shown(here),
        20 => steps::leave(here),
        21 => steps::release(here, there, broken),
        22 => steps::give_up(here),
        23 => steps::fail_power(here),
        24 => steps::cut_off(here),
        25 => steps::fail_carrier(here, there, broken),
        26 => steps::show_record(here, l.a, l.b, l.c, l.d),
        _ => steps::show_quiet(here, there),
    }
}

fn job(here: &mut [u64], there: &[u64], may: bool, l: Line) -> Result<(), Rule> {
    let side = side_of(l.air);
    let word = l.word;
    match word {
        2 => steps::take(here, side, l.a),
        3 => steps::refuse(here, l.a),
        4 => steps::acknowledge(here, l.a),
        5 => steps::publish(here, l.a, l.b, Fate::REFUSED),
        6 => steps::publish(here, l.a, l.b, Fate::ENDED),
        7 => steps::publish(here, l.a, l.b, Fate::BROKEN),
        8 => steps::start(here, there, side, may, false, l.a),
        _ => steps::start(here, there, side, may, true, l.a),
    }
}

// No start can be for the end from which all starts come.
fn hear(
    here: &mut [u64],
    there: &mut [u64],
    broken: &mut [u64],
    may: bool,
    l: Line,
) -> Result<(), Rule> {
    let side = side_of(l.air);
    if l.word == 39 {
        return steps::hear_end(here, there, broken, side, l.a);
    }
    if l.word == 30 && may {
        return Err(Rule::Expected);
    }
    if l.word < 30 {
        return Err(Rule::Unreadable);
    }
    steps::hear(here, there, broken, side, l.word - 30, l.a, l.b, l.c)
}

// The end whose host makes the move comes first.
fn move_on(
    here: &mut [u64],
    there: &mut [u64],
    broken: &mut [u64],
    may: bool,
    l: Line,
) -> Result<(), Rule> {
    if l.word < 2 {
        return Err(Rule::Unreadable);
    }
    if l.word < 10 {
        return job(here, there, may, l);
    }
    if l.word < 19 {
        return call(here, broken, l);
    }
    if l.word < 30 {
        return host(here, there, broken, l);
    }
    hear(here, there, broken, may, l)
}

// The first line says from which side all starts come, and what the two records hold at the beginning: number and highest job of the air's, of the ground's. The
// end that starts has no lower number than the other.
fn begin_dialogue(air: &mut [u64], ground: &mut [u64], l: Line) -> Result<(), Rule> {
    if l.air && l.a < l.c {
        return Err(Rule::Number);
    }
    if !l.air && l.c < l.a {
        return Err(Rule::Number);
    }
    put(air, Place::NUMBER, l.a);
    put(air, Place::HIGHEST, l.b);
    put(ground, Place::NUMBER, l.c);
    put(ground, Place::HIGHEST, l.d);
    Ok(())
}

// Of two centres the first line is that of the one that forwards, and the second that of the other.
fn begin(air: &mut [u64], ground: &mut [u64], watch: &mut [u64], l: Line) -> Result<(), Rule> {
    if l.word == 1 {
        return begin_dialogue(air, ground, l);
    }
    if l.word != 50 {
        return Err(Rule::Unreadable);
    }
    if l.air {
        forwards::join(air, watch, l);
        return Ok(());
    }
    forwards::join(ground, watch, l);
    Ok(())
}

fn begin_other(
    air: &mut [u64],
    ground: &mut [u64],
    watch: &mut [u64],
    from_air: bool,
    l: Line,
) -> Result<(), Rule> {
    if l.word != 50 {
        return Err(Rule::Unreadable);
    }
    if l.air == from_air {
        return Err(Rule::Unreadable);
    }
    if l.air {
        if get(ground, Place::NUMBER) < l.a {
            return Err(Rule::Number);
        }
        forwards::join(air, watch, l);
        return Ok(());
    }
    if get(air, Place::NUMBER) < l.a {
        return Err(Rule::Number);
    }
    forwards::join(ground, watch, l);
    Ok(())
}

// The end whose host makes the move comes first.
fn make(
    here: &mut [u64],
    there: &mut [u64],
    broken: &mut [u64],
    watch: &[u64],
    r: Run,
    may: bool,
    l: Line,
) -> Result<(), Rule> {
    if watched::owes(watch, l.air) {
        return Err(Rule::Book);
    }
    if r.centres {
        return forwards::move_on(here, there, broken, watch, may, l);
    }
    if 49 < l.word {
        return Err(Rule::Card);
    }
    move_on(here, there, broken, may, l)
}

fn advance(
    air: &mut [u64],
    ground: &mut [u64],
    broken: &mut [u64],
    watch: &mut [u64],
    r: Run,
    l: Line,
) -> Result<(), Rule> {
    if l.air {
        if watched::is_said(l.word) {
            return watched::says(watch, air, l);
        }
        return make(air, ground, broken, watch, r, r.from_air, l);
    }
    if watched::is_said(l.word) {
        return watched::says(watch, ground, l);
    }
    make(ground, air, broken, watch, r, !r.from_air, l)
}

fn go_on(
    air: &mut [u64],
    ground: &mut [u64],
    broken: &mut [u64],
    watch: &mut [u64],
    r: Run,
    l: Line,
) -> Result<(), Rule> {
    if l.word < 2 || l.word == 50 {
        return Err(Rule::Unreadable);
    }
    advance(air, ground, broken, watch, r, l)?;
    if !watched::is_said(l.word) {
        watched::moved(watch, air, ground, l);
    }
    Ok(())
}

// ---- the file

fn say_number(rt: &impl Print, n: u64) {
    let _ = rt.print(n);
}

fn name(rt: &impl Print, count: u64, rule: Rule, text: &[u8]) {
    say(rt, b"line ");
    say_number(rt, count);
    say(rt, b": ");
    say(rt, text);
    say(rt, b"\n");
    say_rule(rt, rule);
    say(rt, b"\n");
}

fn agree(rt: &impl Print, count: u64) {
    say(rt, b"every line is a move of the model: ");
    say_number(rt, count);
    say(rt, b" lines\n");
}

// The file ends.
fn finish(rt: &impl Print, r: Run) {
    if r.bytes != 0 {
        say(rt, b"the last line has no end\n");
        return;
    }
    agree(rt, r.count);
}

// What is known between two lines: the side that starts, or forwards; that there are two centres; how many lines there were; how many bytes of the next one are
// there; whether it is over.
#[derive(Clone, Copy)]
struct Run {
    from_air: bool,
    centres: bool,
    count: u64,
    bytes: usize,
    over: bool,
}

// One line more.
fn one_line(
    rt: &impl Print,
    air: &mut [u64],
    ground: &mut [u64],
    broken: &mut [u64],
    watch: &mut [u64],
    r: Run,
    text: &[u8],
) -> Run {
    let l = lines::read(text);
    if r.count == 0 {
        let made = begin(air, ground, watch, l);
        return counted(rt, r, l.air, l.word == 50, made, text);
    }
    if r.centres && r.count == 1 {
        let made = begin_other(air, ground, watch, r.from_air, l);
        return counted(rt, r, r.from_air, true, made, text);
    }
    let made = go_on(air, ground, broken, watch, r, l);
    counted(rt, r, r.from_air, r.centres, made, text)
}

// A line that breaks a rule is named, and that is the end.
fn counted(
    rt: &impl Print,
    r: Run,
    from_air: bool,
    centres: bool,
    made: Result<(), Rule>,
    text: &[u8],
) -> Run {
    let count = next(r.count);
    if let Err(rule) = made {
        name(rt, count, rule, text);
    }
    Run {
        from_air,
        centres,
        count,
        bytes: 0,
        over: made.is_err(),
    }
}

fn next(count: u64) -> u64 {
    if count < 1000000000000 {
        count + 1
    } else {
        count
    }
}

// One byte more.
fn one_byte(
    rt: &impl Print,
    air: &mut [u64],
    ground: &mut [u64],
    broken: &mut [u64],
    watch: &mut [u64],
    text: &mut [u8],
    r: Run,
    x: u8,
) -> Run {
    let n = r.bytes;
    if x == 10 {
        if n <= text.len() {
            return one_line(rt, air, ground, broken, watch, r, &text[..n]);
        }
        return r;
    }
    if n < text.len() {
        text[n] = x;
        return Run {
            bytes: n + 1,
            over: false,
            ..r
        };
    }
    name(rt, r.count, Rule::Unreadable, text);
    Run {
        bytes: 0,
        over: true,
        ..r
    }
}

// The bytes of one read.
fn some(
    rt: &impl Print,
    air: &mut [u64],
    ground: &mut [u64],
    broken: &mut [u64],
    watch: &mut [u64],
    text: &mut [u8],
    r: Run,
    s: &[u8],
) -> Run {
    let mut run = r;
    for &x in s {
        run = one_byte(rt, air, ground, broken, watch, text, run, x);
        if run.over {
            break;
        }
    }
    run
}

// Reads until the buffer is full, the input ends or a read fails, and answers how many bytes it put at the buffer's start.
fn read_full(input: &mut impl io::Read, buf: &mut [u8]) -> usize
    ensures { result ≤ length buf.new }
{
    let mut done: usize = 0;
    while done < buf.len() {
        let Ok(n) = input.read(&mut buf[done..]) else {
            break;
        };
        if n == 0 {
            break;
        }
        done += n;
    }
    done
}

// Up to four gigabytes of a file.
fn read_on(
    rt: &impl Print,
    input: &mut impl io::Read,
    air: &mut [u64],
    ground: &mut [u64],
    broken: &mut [u64],
    watch: &mut [u64],
    text: &mut [u8],
    chunk: &mut [u8],
) {
    let mut run = Run {
        from_air: true,
        centres: false,
        count: 0,
        bytes: 0,
        over: false,
    };
    for _ in 0..65536 {
        let n = read_full(input, chunk);
        if n == 0 {
            finish(rt, run);
            return;
        }
        run = some(rt, air, ground, broken, watch, text, run, &chunk[..n]);
        if run.over {
            return;
        }
    }
    say(rt, b"the file is too long\n");
}

fn replay(rt: &impl Print, input: &mut impl io::Read) {
    let mut air = new_page();
    let mut ground = new_page();
    let mut broken = new_broken();
    let mut watch = new_watch();
    let mut text = [0u8; 127];
    let mut chunk = chunk_buffer();
    read_on(
        rt,
        input,
        &mut air,
        &mut ground,
        &mut broken,
        &mut watch,
        &mut text,
        &mut chunk,
    );
}

// The argument of this number, at the buffer's start, and how many bytes it has: none where it is missing or the buffer is too small.
fn argument(rt: &impl Env, number: usize, buf: &mut [u8]) -> usize
    ensures { result ≤ length buf.new }
{
    rt.arg(number, buf).unwrap_or(0)
}

// Whether there is an argument of this number.
fn is_there(rt: &impl Env, number: usize) -> bool {
    let mut none = [0u8; 0];
    !matches!(rt.arg(number, &mut none), Err(FillError::NotPresent))
}

// The file of this name.
fn replay_named(rt: &(impl Files + Print + Eprint), name: &str) {
    match File::open(rt, name) {
        Ok(mut file) => replay(rt, &mut file),
        Err(e) => {
            let _ = eprintln!(rt; "{name}: {e}");
        }
    }
}

// The file that the first argument names.
fn replay_first(rt: &(impl Env + Files + Print + Eprint)) {
    let mut path = path_buffer();
    let n = argument(rt, 1, &mut path);
    let Ok(name) = from_utf8(&path[..n]) else {
        let _ = eprintln!(rt; "a path is not text");
        return;
    };
    replay_named(rt, name);
}

fn main(rt: HostRuntime) {
    if is_there(&rt, 1) && !is_there(&rt, 2) {
        replay_first(&rt);
        return;
    }
    let _ = eprintln!(rt; "usage: replay FILE");
}
