// The readers by their ops.
use crate::Answer;
use crate::request::Request;

pub(crate) fn read(q: Request, s: &[u8]) -> Option<Answer> {
    let end = q.end;
    let at = q.at;
    let lo = q.lo;
    let hi = q.hi;
    let unit = q.value as usize;
    let found = match q.op {
        1 => fields::bit_field(s, end, at, lo as usize),
        2 => fields::whole(s, end, at, lo, hi),
        3 => fields::extension_bit(s, end, at),
        4 => fields::extensible_index(s, end, at, hi),
        5 => fields::length(s, end, at),
        6 => fields::length_within(s, end, at, lo, hi),
        7 => fields::contents(s, end, at, lo as usize, q.value as usize),
        8 => fields::string(s, end, at, unit, lo, hi),
        9 => fields::sized(s, end, at, unit, lo, hi),
        11 => fields::additions(s, end, at),
        12 => fields::addition_count(s, end, at),
        13 => fields::additions_there(s, end, at, lo as usize),
        _ => return None,
    };
    Some(Answer::Read(found))
}
