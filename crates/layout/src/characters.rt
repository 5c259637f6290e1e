// Characters copied from the bits of a message into a text.
ghost use Rattle.std.specs.Prelude.{◌≡◌, ℕ, ◌+◌, ◌*◌, ◌<◌, ◌≤◌, drop, get_or, length, take};
ghost use Rattle.std.proofs.lemmas.List.Edits.{sets};
ghost use Rattle.bits.specs.Bits.{bits_n, bits_to, num_of};
ghost use Rattle.elements.specs.Arguments.{characters_in};
ghost use Rattle.layout.specs.Rows.{texts_of};

use elements::values::Element;

// The number that n bits say that are there, at most 64.
fn number_of(s: &[u8], end: usize, at: usize, n: usize) -> u64
    requires { (at + n ≤ length (bits_to s.now end)) × (n ≤ 64) }
    ensures { result ≡ num_of (take n (drop at (bits_to s.now end))) }
{
    let Some((v, _)) = bits::read_bits(s, end, at, n) else {
        return 0;
    };
    v
}

// The n characters that a number of 7 n bits says, at most eight, into the text from a place on.
fn spread(text: &mut [u8], from: usize, n: usize, v: u64)
    requires { (from + n ≤ length text.old) × (n ≤ 8) }
    ensures { text.new ≡ sets text.old from (characters_in (bits_n (7 * n) v) 0 n) }
{
    for i in 0..n {
        text[from + i] = ((v >> (Element::CHARACTER_BITS * (n - 1 - i))) % 128) as u8;
    }
}

// The n characters at a place, at most eight, as one number.
fn copy_few(s: &[u8], end: usize, at: usize, n: usize, text: &mut [u8], from: usize)
    requires { (at + 7 * n ≤ length (bits_to s.now end)) × (from + n ≤ length text.old) × (n ≤ 8) }
    ensures { text.new ≡ sets text.old from (characters_in (bits_to s.now end) at n) }
{
    let v = number_of(s, end, at, Element::CHARACTER_BITS * n);
    spread(text, from, n, v);
}

// The n characters at a place, eight at a time, into the text from a place on.
fn copy_characters(s: &[u8], end: usize, at: usize, n: usize, text: &mut [u8], from: usize)
    requires { (at + 7 * n ≤ length (bits_to s.now end)) × (from + n ≤ length text.old) }
    ensures { text.new ≡ sets text.old from (characters_in (bits_to s.now end) at n) }
{
    for k in 0..n / 8 {
        copy_few(
            s,
            end,
            at + 8 * Element::CHARACTER_BITS * k,
            8,
            text,
            from + 8 * k,
        );
    }
    let rest = n % 8;
    copy_few(
        s,
        end,
        at + Element::CHARACTER_BITS * (n - rest),
        rest,
        text,
        from + (n - rest),
    );
}

// The characters of n elements, by how many each has and where they begin, from the text's first byte on; how many there are.
pub(crate) fn copy_texts(
    s: &[u8],
    end: usize,
    counts: [usize; 5],
    starts: [usize; 5],
    n: usize,
    text: &mut [u8],
) -> usize
    requires { (n ≤ 5) × ((k : ℕ) → k < n → get_or starts k 0 + 7 * get_or counts k 0 ≤ length (bits_to s.now end))
        × (length (texts_of (bits_to s.now end) counts starts n) ≤ length text.old) }
    ensures { (result ≡ length (texts_of (bits_to s.now end) counts starts n)) × (text.new ≡
        sets text.old 0 (texts_of (bits_to s.now end) counts starts n)) }
{
    let mut t: usize = 0;
    for i in 0..n {
        let c = counts[i];
        copy_characters(s, end, starts[i], c, text, t);
        t += c;
    }
    t
}
