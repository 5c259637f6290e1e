// The writers by their ops.
use crate::Answer;
use crate::request::Request;

// The end that leaves out no bit of the bytes that a string is taken from.
const ALL: usize = usize::MAX;

pub(crate) fn write(q: Request, buf: &mut [u8], src: &[u8]) -> Option<Answer> {
    let end = q.end;
    let at = q.at;
    let lo = q.lo;
    let hi = q.hi;
    let v = q.value;
    let wrote = match q.op {
        129 => bits::put_bits(buf, end, at, lo as usize, v),
        130 => fields::put_whole(buf, end, at, lo, hi, v),
        131 => fields::put_extension_bit(buf, end, at),
        132 => fields::put_extensible_index(buf, end, at, hi, v),
        133 => fields::put_length(buf, end, at, v),
        136 => fields::put_string(buf, end, at, lo as usize, v as usize, src, ALL, hi as usize),
        138 => bits::copy_bits(buf, end, at, src, lo as usize, hi as usize, v as usize),
        _ => return None,
    };
    Some(Answer::Wrote(wrote))
}
