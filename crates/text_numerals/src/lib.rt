// Numbers in decimal and bytes as pairs of hexadecimal digits, put into a lent buffer or read in a line. A
// function that puts answers the place after what it put.
#![tactic(auto)]

ghost use Rattle.std.specs.Prelude.{◌≡◌, ◌∷◌, [], ◌+◌, ◌*◌, ◌<◌, ◌≤◌, MatchOption, false, true, length, take, drop};
ghost use Rattle.text_numerals.specs.Decimal.{glyph as glyph_of, number_text, spaced_texts, joined_texts};
ghost use Rattle.text_numerals.specs.Decimal.{is_digit, worth, digits, fitting, front_number};
ghost use Rattle.text_numerals.specs.Decimal.{spaced_number};
ghost use Rattle.text_numerals.specs.Decimal.{then_values, numbers_in, prepended, at_most};
ghost use Rattle.text_numerals.specs.Pairs.{is_hex, hex_worth, pairs_in};
ghost use Rattle.text_numerals.specs.Fields.{numeral_of, Collects};
ghost use Rattle.text_numerals.specs.Pairs.{hex_pairs};
ghost use Rattle.text_numerals.specs.Put.{Put};

pub fn put_byte(out: &mut [u8], at: usize, b: u8) -> usize
    requires { at < length out.old }
    ensures { Put out.old at (b ∷ []) out.new result }
{
    out[at] = b;
    at + 1
}

// The character of a digit.
pub fn glyph(d: u8) -> u8
    requires { d < 16 }
    ensures { result ≡ glyph_of d }
{
    if d < 10 {
        return b'0' + d;
    }
    b'a' - 10 + d
}

// A number in decimal, its front digits first.
pub fn put_number(out: &mut [u8], at: usize, n: usize) -> usize
    requires { at + length (number_text n) ≤ length out.old }
    ensures { Put out.old at (number_text n) out.new result }
{
    if n < 10 {
        return put_byte(out, at, glyph(n as u8));
    }
    let next = put_number(out, at, n / 10);
    put_byte(out, next, glyph((n % 10) as u8))
}

// A space, and a number in decimal.
pub fn put_spaced(out: &mut [u8], at: usize, n: usize) -> usize
    requires { at + 21 ≤ length out.old }
    ensures { Put out.old at (32 ∷ number_text n) out.new result }
{
    let next = put_byte(out, at, b' ');
    put_number(out, next, n)
}

// Bytes as pairs of hexadecimal digits.
pub fn put_pairs(out: &mut [u8], at: usize, bytes: &[u8]) -> usize
    requires { at + 2 * length bytes.now ≤ length out.old }
    ensures { Put out.old at (hex_pairs bytes.now) out.new result }
{
    let mut next = at;
    for b in bytes {
        next = put_byte(out, next, glyph(*b / 16));
        next = put_byte(out, next, glyph(*b % 16));
    }
    next
}

// Octets in decimal, each behind one space.
pub fn put_list(out: &mut [u8], at: usize, list: &[u8]) -> usize
    requires { at + 21 * length list.now ≤ length out.old }
    ensures { Put out.old at (spaced_texts list.now) out.new result }
{
    let mut next = at;
    for n in list {
        next = put_spaced(out, next, usize::from(*n));
    }
    next
}

// Octets in decimal with one space between.
pub fn put_joined(out: &mut [u8], at: usize, list: &[u8]) -> usize
    requires { at + 21 * length list.now ≤ length out.old }
    ensures { Put out.old at (joined_texts list.now) out.new result }
{
    let [first, others @ ..] = list else {
        return at;
    };
    let next = put_number(out, at, usize::from(*first));
    put_list(out, next, others)
}

// A number that was read, and where the bytes after it start.
#[derive(Clone, Copy)]
pub struct Number {
    pub value: usize,
    pub end: usize,
}

// What a digit is worth.
pub fn digit(b: u8) -> Option<usize>
    ensures { MatchOption result (is_digit b ≡ false)
        (λ d. (is_digit b ≡ true) × ((d ≡ worth b) × (d ≤ 9))) }
{
    match b {
        b'0'..=b'9' => Some(usize::from(b - b'0')),
        _ => None,
    }
}

// The number that up to `more` digits from a place on make of its first one; none if it does not fit.
fn digits_from(line: &[u8], first: usize, from: usize, more: usize) -> Option<Number>
    requires { first ≤ 9 }
    ensures { numeral_of line.now result
        ≡ fitting (digits more first (drop from line.now)) }
{
    let mut value = first;
    let end = line.len().min(from.saturating_add(more));
    for at in from..end {
        let Some(d) = digit(line[at]) else {
            return Some(Number { value, end: at });
        };
        value = value.checked_mul(10)?.checked_add(d)?;
    }
    Some(Number { value, end })
}

// A number of one digit and up to `more` more.
pub fn number_at(line: &[u8], at: usize, more: usize) -> Option<Number>
    ensures { numeral_of line.now result ≡ front_number more (drop at line.now) }
{
    let first = digit(*line.get(at)?)?;
    digits_from(line, first, at + 1, more)
}

// One space, and such a number.
pub fn spaced_at(line: &[u8], at: usize, more: usize) -> Option<Number>
    ensures { numeral_of line.now result ≡ spaced_number more (drop at line.now) }
{
    if *line.get(at)? != b' ' {
        return None;
    }
    number_at(line, at + 1, more)
}

// The most digits of a number of 64 bits after its first.
const FURTHER: usize = 19;

// At most `most` numbers, each behind one space, up to the line's end. They are put into the buffer from
// `first` on. Answers the place after the last of them.
fn numbers_from(
    line: &[u8],
    from: usize,
    buffer: &mut [usize],
    first: usize,
    most: usize,
) -> Option<usize>
    requires { first + most ≤ length buffer.old }
    ensures { Collects buffer.old result buffer.new
        (prepended (take first buffer.old) (numbers_in most (drop from line.now))) }
{
    let mut at = from;
    let mut n = first;
    // A while: where a number ends says where the next one starts.
    while at < line.len() {
        if n == first + most {
            return None;
        }
        let number = spaced_at(line, at, FURTHER)?;
        buffer[n] = number.value;
        n += 1;
        at = number.end;
    }
    Some(n)
}

// A number at a place, and up to 17 more, each behind one space: how many they are, at the buffer's front.
pub fn joined_numbers(line: &[u8], from: usize, buffer: &mut [usize]) -> Option<usize>
    requires { 18 ≤ length buffer.old }
    ensures { Collects buffer.old result buffer.new
        (then_values (front_number 19 (drop from line.now)) (numbers_in 17)) }
{
    let number = number_at(line, from, FURTHER)?;
    buffer[0] = number.value;
    numbers_from(line, number.end, buffer, 1, 17)
}

// What a hexadecimal digit is worth.
fn hex_digit(b: u8) -> Option<u8>
    ensures { MatchOption result (is_hex b ≡ false)
        (λ d. (is_hex b ≡ true) × ((d ≡ hex_worth b) × (d ≤ 15))) }
{
    match b {
        b'0'..=b'9' => Some(b - b'0'),
        b'a'..=b'f' => Some(b - b'a' + 10),
        _ => None,
    }
}

// Bytes as pairs of hexadecimal digits from a place on, up to the line's end: how many they are, at the
// buffer's front. None if it has no room for all of them.
pub fn pairs_at(line: &[u8], from: usize, buffer: &mut [u8]) -> Option<usize>
    ensures { Collects buffer.old result buffer.new
        (at_most (length buffer.old) (pairs_in (drop from line.now))) }
{
    let pairs = &line[from.min(line.len())..];
    let n = pairs.len() / 2;
    if pairs.len() % 2 != 0 || buffer.len() < n {
        return None;
    }
    for i in 0..n {
        buffer[i] = hex_digit(pairs[2 * i])? * 16 + hex_digit(pairs[2 * i + 1])?;
    }
    Some(n)
}
