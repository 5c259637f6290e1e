// What a line breaks: a duty of docs/HOST.md, by its number, or another rule.
ghost use Rattle.std.specs.Prelude.{◌≡◌};
ghost use Rattle.replay.specs.declared.rules.Rule.TheVariants.{Room};

#[derive(Clone, Copy)]
pub enum Rule {
    Kept = 1,
    Fresh = 2,
    Restart = 3,
    Fate = 4,
    LookUp = 6,
    Once = 7,
    Book = 11,
    Number = 12,
    Counted = 13,
    Shown = 14,
    Whole = 15,
    Position = 16,
    Expected = 17,
    Card = 20,
    Carrier = 21,
    Unreadable = 22,
    Room = 23,
    Another = 24,
    Kind = 25,
    Behind = 26,
}

// There is no room in a list.
#[derive(Drop)]
pub struct Full {}

impl From<Full> for Rule {
    ghost from_gives = { λ _ r. r ≡ Room };

    fn from(_full: Full) -> Rule {
        Rule::Room
    }
}

// What cannot be written is left out, as to a reader that is gone.
fn say(rt: &impl Print, words: &[u8]) {
    let _ = rt.write_all(words);
}

pub(crate) fn say_rule(rt: &impl Print, rule: Rule) {
    match rule {
        Rule::Kept => say(
            rt,
            b"duty 1, keep, then release: this leaves before its call or its decision is kept",
        ),
        Rule::Fresh => say(
            rt,
            b"duty 2, never a fresh record: the record is another than the one that was kept",
        ),
        Rule::Restart => say(
            rt,
            b"duty 3, a restart is a failure of the carrier: this end has no connection, or the other one still believes in it",
        ),
        Rule::Fate => say(
            rt,
            b"duty 4, the fate of each job: it is not this, or not known yet",
        ),
        Rule::LookUp => say(rt, b"duty 6, look up first: the job was decided before"),
        Rule::Once => say(
            rt,
            b"duty 7, each primitive once, as it arrived, in order: another is the next on the line, or none has left",
        ),
        Rule::Book => say(
            rt,
            b"duty 11, the book: a number is opened that is open, or closed that no reply names, or the one that a reply names is not closed",
        ),
        Rule::Number => say(
            rt,
            b"duty 12, the dialogue number: it is not the entry's, or not above the record's",
        ),
        Rule::Counted => say(
            rt,
            b"duty 13, forwards are counted by the host: the job was decided before",
        ),
        Rule::Shown => say(
            rt,
            b"duty 14, shown before the next call: the user has not been shown what was handed out",
        ),
        Rule::Whole => say(
            rt,
            b"duty 15, a D-START between centres is handed over whole: its version is another",
        ),
        Rule::Position => say(
            rt,
            b"duty 16, a position goes by the answers: nothing has opened or closed the dialogue since it was shown",
        ),
        Rule::Expected => say(
            rt,
            b"duty 17, a start that its side of the dialogue can not expect is not handed over",
        ),
        Rule::Card => say(rt, b"the card does not do this here"),
        Rule::Carrier => say(
            rt,
            b"the carrier does not do this: something is on the line, or no start is there",
        ),
        Rule::Room => say(
            rt,
            b"there is no room for this in the tables of the program",
        ),
        Rule::Another => say(rt, b"the message is another than the one that was taken"),
        Rule::Kind => say(rt, b"the envelope is not one of a delivered message"),
        Rule::Behind => say(
            rt,
            b"this line stands behind another one, which is not there",
        ),
        Rule::Unreadable => say(rt, b"the line can not be read"),
    }
}
