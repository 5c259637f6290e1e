// A line of a recorded day: the side, a word, and up to four numbers, with one space before each.

// The side is the air; the word by its number, 0 where it is none; how many numbers there are; the numbers.
#[derive(Clone, Copy)]
pub struct Line {
    pub air: bool,
    pub word: u64,
    pub count: u64,
    pub a: u64,
    pub b: u64,
    pub c: u64,
    pub d: u64,
}

// The bytes from a place to another are this word.
fn same(s: &[u8], from: usize, to: usize, word: &[u8]) -> bool {
    from <= to && to <= s.len() && &s[from..to] == word
}

// The place of the next space, or the end.
fn space(s: &[u8], from: usize) -> usize {
    for i in from..s.len() {
        if s[i] == b' ' {
            return i;
        }
    }
    s.len()
}

// The digits from a place to another; none where there is none, where one is no digit, or where the number has more than eight bytes.
fn number(s: &[u8], from: usize, to: usize) -> Option<u64> {
    if to <= from || s.len() < to {
        return None;
    }
    let mut n: u64 = 0;
    for &x in &s[from..to] {
        if !x.is_ascii_digit() {
            return None;
        }
        n = n.checked_mul(10)?.checked_add(u64::from(x - b'0'))?;
    }
    Some(n)
}

fn word(s: &[u8], from: usize, to: usize) -> u64 {
    if same(s, from, to, b"from") {
        return 1;
    }
    if same(s, from, to, b"takes") {
        return 2;
    }
    if same(s, from, to, b"refuses") {
        return 3;
    }
    if same(s, from, to, b"acknowledges") {
        return 4;
    }
    if same(s, from, to, b"tells-refused") {
        return 5;
    }
    if same(s, from, to, b"tells-ended") {
        return 6;
    }
    if same(s, from, to, b"tells-broken") {
        return 7;
    }
    if same(s, from, to, b"starts-cpdlc") {
        return 8;
    }
    if same(s, from, to, b"starts-dsc") {
        return 9;
    }
    if same(s, from, to, b"accepts-start") {
        return 10;
    }
    if same(s, from, to, b"rejects-start") {
        return 11;
    }
    if same(s, from, to, b"asks-end") {
        return 12;
    }
    if same(s, from, to, b"accepts-end") {
        return 13;
    }
    if same(s, from, to, b"rejects-end") {
        return 14;
    }
    other_word(s, from, to)
}

fn other_word(s: &[u8], from: usize, to: usize) -> u64 {
    if same(s, from, to, b"aborts") {
        return 15;
    }
    if same(s, from, to, b"expires") {
        return 16;
    }
    if same(s, from, to, b"error") {
        return 17;
    }
    if same(s, from, to, b"turned-back") {
        return 18;
    }
    if same(s, from, to, b"shows") {
        return 19;
    }
    if same(s, from, to, b"sends") {
        return 20;
    }
    if same(s, from, to, b"released") {
        return 21;
    }
    if same(s, from, to, b"gives-up") {
        return 22;
    }
    if same(s, from, to, b"power-fails") {
        return 23;
    }
    if same(s, from, to, b"cut-off") {
        return 24;
    }
    if same(s, from, to, b"carrier-fails") {
        return 25;
    }
    if same(s, from, to, b"record") {
        return 26;
    }
    if same(s, from, to, b"quiet") {
        return 27;
    }
    word_heard(s, from, to)
}

fn word_heard(s: &[u8], from: usize, to: usize) -> u64 {
    if same(s, from, to, b"hears-start") {
        return 30;
    }
    if same(s, from, to, b"hears-start-accepted") {
        return 32;
    }
    if same(s, from, to, b"hears-start-rejected") {
        return 33;
    }
    if same(s, from, to, b"hears-data") {
        return 34;
    }
    if same(s, from, to, b"hears-end") {
        return 35;
    }
    if same(s, from, to, b"hears-end-accepted") {
        return 36;
    }
    if same(s, from, to, b"hears-end-rejected") {
        return 37;
    }
    if same(s, from, to, b"hears-abort") {
        return 38;
    }
    if same(s, from, to, b"hears-end-confirmed") {
        return 39;
    }
    word_said(s, from, to)
}

// What is no move, and says something of one.
fn word_said(s: &[u8], from: usize, to: usize) -> u64 {
    if same(s, from, to, b"bits") {
        return 40;
    }
    if same(s, from, to, b"reason") {
        return 41;
    }
    if same(s, from, to, b"posts") {
        return 42;
    }
    if same(s, from, to, b"opens") {
        return 43;
    }
    if same(s, from, to, b"replies") {
        return 44;
    }
    if same(s, from, to, b"closes") {
        return 45;
    }
    if same(s, from, to, b"discards") {
        return 46;
    }
    if same(s, from, to, b"opened") {
        return 47;
    }
    if same(s, from, to, b"closed") {
        return 48;
    }
    word_of_centres(s, from, to)
}

fn word_of_centres(s: &[u8], from: usize, to: usize) -> u64 {
    if same(s, from, to, b"centre") {
        return 50;
    }
    if same(s, from, to, b"forwards") {
        return 51;
    }
    if same(s, from, to, b"hears-forward") {
        return 52;
    }
    if same(s, from, to, b"hears-answer") {
        return 53;
    }
    if same(s, from, to, b"tells-answered") {
        return 54;
    }
    0
}

const UNREAD: Line = Line {
    air: true,
    word: 0,
    count: 0,
    a: 0,
    b: 0,
    c: 0,
    d: 0,
};

// A line with one number more.
fn with(l: Line, n: u64) -> Line {
    match l.count {
        0 => Line {
            count: 1,
            a: n,
            ..l
        },
        1 => Line {
            count: 2,
            b: n,
            ..l
        },
        2 => Line {
            count: 3,
            c: n,
            ..l
        },
        3 => Line {
            count: 4,
            d: n,
            ..l
        },
        _ => UNREAD,
    }
}

// How many numbers a word needs.
fn needed(word: u64) -> u64 {
    match word {
        2 | 3 | 4 | 8 | 9 | 15 | 16 | 17 | 40 | 41 | 42 | 43 | 44 | 45 | 46 | 53 => 1,
        5 | 6 | 7 | 30 | 32 | 33 | 35 | 36 | 37 | 38 | 39 | 51 | 52 => 2,
        34 | 50 | 54 => 3,
        1 | 26 => 4,
        _ => 0,
    }
}

fn finished(l: Line) -> Line {
    if l.count == needed(l.word) { l } else { UNREAD }
}

// The numbers behind the word, from a place on.
fn numbers(s: &[u8], from: usize, l: Line) -> Line {
    let mut line = l;
    let mut at = from;
    while at < s.len() {
        if s[at] != b' ' {
            return UNREAD;
        }
        let begin = at + 1;
        let end = space(s, begin);
        let Some(n) = number(s, begin, end) else {
            return UNREAD;
        };
        if end <= at {
            return UNREAD;
        }
        line = with(line, n);
        at = end;
    }
    finished(line)
}

pub(crate) fn read(s: &[u8]) -> Line {
    if s.len() < 3 {
        return UNREAD;
    }
    if s[0] != b'a' && s[0] != b'g' {
        return UNREAD;
    }
    if s[1] != b' ' {
        return UNREAD;
    }
    let end = space(s, 2);
    let begun = Line {
        air: s[0] == b'a',
        word: word(s, 2, end),
        count: 0,
        a: 0,
        b: 0,
        c: 0,
        d: 0,
    };
    numbers(s, end, begun)
}
