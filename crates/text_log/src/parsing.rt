// What a line of a call log says. specs/LogLines.antt says which form a line has.
ghost use Rattle.std.specs.Prelude.{cond, ◌≡◌, leb, ◌≤◌, length, drop};
ghost use Rattle.text_log.specs.LogLines.{another, entry_asked, if_whole, call_in, entry_in};
ghost use Rattle.text_log.specs.LogLines.{write_entry as written_in};
ghost use Rattle.text_log.specs.LogLines.{pairs_behind, text_behind, expectation_in, numbers_only};
ghost use Rattle.text_log.specs.LogLines.{of_octets, fresh, ordering, most_written};
ghost use Rattle.text_log.specs.Octets.{octets_in};
ghost use Rattle.text_log.specs.Reading.{Says, SaysNumbers};
ghost use Rattle.text_numerals.specs.Fields.{Collects};

use buffers::parts::copy_to;
use requests::Request;
use text_numerals::{joined_numbers, number_at, pairs_at, spaced_at};

// What a line says: another form; nothing; the answer of the call before, which stands behind `= `; a
// version; Fresh, with so many file numbers; a request, with so many bytes of a Write and the length of the
// buffer for an answer; the best order, with its minute, its budget and so many transactions. File numbers,
// bytes and transactions lie at the front of a lent buffer. Another form is a case like the others, no None around
// them: who takes a line answers each kind in one match.
#[derive(Clone, Copy)]
pub enum ParsedEntry {
    Another,
    Comment,
    Expects,
    Version(usize),
    Fresh(usize),
    Asks(Request, usize, usize),
    Order(usize, usize, usize),
}

// The most bytes of a line, without its end.
pub const LONGEST: usize = 8237;

// The length of the buffer for an answer where the line of a Read names none.
const TRACE_ROOM: usize = limits::FILE_BYTES;

// The most digits of a number after its first.
const FURTHER: usize = 19;

// The line of a letter with its numbers: `B0`, `C0 600` (or `C0` at minute 0), `A0`, `P0 3`, `S0 3 17`,
// `R0 3 5 64` (or `R0 3 5`), `L0 2 64`, `H2 480 1320`, `U`, `V1`.
fn by_letter(letter: u8, numbers: &[usize]) -> ParsedEntry
    requires { (letter ≡ 70 → ⊥) × (letter ≡ 79 → ⊥) }
    ensures { SaysNumbers result (entry_asked letter numbers.now) }
{
    match (letter, numbers) {
        (b'B', [t]) => ParsedEntry::Asks(Request::Begin(*t), 0, 0),
        (b'C', [t]) => ParsedEntry::Asks(Request::Commit(*t, 0), 0, 0),
        (b'C', [t, minute]) => ParsedEntry::Asks(Request::Commit(*t, *minute), 0, 0),
        (b'A', [t]) => ParsedEntry::Asks(Request::Abort(*t), 0, 0),
        (b'P', [t, d]) => ParsedEntry::Asks(Request::GetFilePointer(*t, *d), 0, 0),
        (b'S', [t, d, v]) => ParsedEntry::Asks(Request::Seek(*t, *d, *v), 0, 0),
        (b'R', [t, d, n]) => ParsedEntry::Asks(Request::Read(*t, *d, *n), 0, TRACE_ROOM),
        (b'R', [t, d, n, room]) => ParsedEntry::Asks(Request::Read(*t, *d, *n), 0, *room),
        (b'L', [t, f, room]) => ParsedEntry::Asks(Request::Places(*t, *f), 0, *room),
        (b'H', [f, start, end]) => ParsedEntry::Asks(Request::SetWindow(*f, *start, *end), 0, 0),
        (b'U', []) => ParsedEntry::Asks(Request::UndoCommit, 0, 0),
        (b'V', [v]) => ParsedEntry::Version(*v),
        _ => ParsedEntry::Another,
    }
}

// Numbers as octets, put to a buffer's front; none if one is above 255.
fn octets_of(numbers: &[usize], bytes: &mut [u8]) -> Option<usize>
    requires { length numbers.now ≤ length bytes.old }
    ensures { Collects bytes.old result bytes.new (octets_in numbers.now) }
{
    for (i, n) in numbers.iter().enumerate() {
        if 255 < *n {
            return None;
        }
        bytes[i] = *n as u8;
    }
    Some(numbers.len())
}

// `F0 1 2 ..`
fn fresh_line(numbers: &[usize], bytes: &mut [u8]) -> ParsedEntry
    requires { length numbers.now ≤ length bytes.old }
    ensures { Says result bytes.new (of_octets numbers.now (fresh numbers.now)) }
{
    let Some(k) = octets_of(numbers, bytes) else {
        return ParsedEntry::Another;
    };
    ParsedEntry::Fresh(k)
}

// `O600 40320 2 0 1`
fn order_line(numbers: &[usize], bytes: &mut [u8]) -> ParsedEntry
    requires { length numbers.now ≤ length bytes.old }
    ensures { Says result bytes.new (ordering numbers.now) }
{
    let [minute, budget, list @ ..] = numbers else {
        return ParsedEntry::Another;
    };
    let Some(k) = octets_of(list, bytes) else {
        return ParsedEntry::Another;
    };
    ParsedEntry::Order(*minute, *budget, k)
}

// The line of a letter with its numbers, of which those of a list go to a buffer's front.
fn with_list(letter: u8, numbers: &[usize], bytes: &mut [u8]) -> ParsedEntry
    requires { length numbers.now ≤ length bytes.old }
    ensures { Says result bytes.new (entry_asked letter numbers.now) }
{
    match letter {
        b'F' => fresh_line(numbers, bytes),
        b'O' => order_line(numbers, bytes),
        _ => by_letter(letter, numbers),
    }
}

// A letter with its numbers, the first directly behind it.
fn joined_line(line: &[u8], letter: u8, numbers: &mut [usize], bytes: &mut [u8]) -> ParsedEntry
    requires { (length numbers.old ≡ 18) × (length bytes.old ≡ most_written) }
    ensures { Says result bytes.new (if_whole (entry_asked letter)
        (numbers_only (drop 1 line.now))) }
{
    if line.len() < 2 {
        return with_list(letter, &[], bytes);
    }
    let Some(n) = joined_numbers(line, 1, numbers) else {
        return ParsedEntry::Another;
    };
    with_list(letter, &numbers[..n], bytes)
}

// The bytes of a Write as pairs, from a place on.
fn pairs_behind(line: &[u8], at: usize, t: usize, d: usize, bytes: &mut [u8]) -> ParsedEntry
    requires { length bytes.old ≡ most_written }
    ensures { Says result bytes.new (pairs_behind t d (drop at line.now)) }
{
    if line.len() <= at {
        return ParsedEntry::Asks(Request::Write(t, d), 0, 0);
    }
    if line[at] != b' ' {
        return ParsedEntry::Another;
    }
    let Some(n) = pairs_at(line, at + 1, bytes) else {
        return ParsedEntry::Another;
    };
    ParsedEntry::Asks(Request::Write(t, d), n, 0)
}

// `X0 3 68690a`
fn pairs_line(line: &[u8], bytes: &mut [u8]) -> ParsedEntry
    requires { length bytes.old ≡ most_written }
    ensures { Says result bytes.new (written_in pairs_behind (drop 1 line.now)) }
{
    let Some(t) = number_at(line, 1, FURTHER) else {
        return ParsedEntry::Another;
    };
    let Some(d) = spaced_at(line, t.end, FURTHER) else {
        return ParsedEntry::Another;
    };
    pairs_behind(line, d.end, t.value, d.value, bytes)
}

// The bytes of a Write as they are, from a place on.
fn text_behind(line: &[u8], at: usize, t: usize, d: usize, bytes: &mut [u8]) -> ParsedEntry
    requires { (length bytes.old ≡ most_written) × (length line.now ≤ 128) }
    ensures { Says result bytes.new (text_behind t d (drop at line.now)) }
{
    if line.len() <= at {
        return ParsedEntry::Another;
    }
    if line[at] != b' ' {
        return ParsedEntry::Another;
    }
    let from = at + 1;
    let n = line.len() - from;
    copy_to(bytes, 0, &line[from..]);
    ParsedEntry::Asks(Request::Write(t, d), n, 0)
}

// `W0 3 hi`
fn text_line(line: &[u8], bytes: &mut [u8]) -> ParsedEntry
    requires { (length bytes.old ≡ most_written) × (length line.now ≤ 128) }
    ensures { Says result bytes.new (written_in text_behind (drop 1 line.now)) }
{
    let Some(t) = number_at(line, 1, FURTHER) else {
        return ParsedEntry::Another;
    };
    let Some(d) = spaced_at(line, t.end, FURTHER) else {
        return ParsedEntry::Another;
    };
    text_behind(line, d.end, t.value, d.value, bytes)
}

// `W0 3 hi`, in a line of at most 128 bytes.
fn short_text_line(line: &[u8], bytes: &mut [u8]) -> ParsedEntry
    requires { length bytes.old ≡ most_written }
    ensures { Says result bytes.new
        (cond (leb (length (drop 1 line.now)) 127)
        (written_in text_behind (drop 1 line.now)) another) }
{
    if 128 < line.len() {
        return ParsedEntry::Another;
    }
    text_line(line, bytes)
}

// `= ok 2`
fn answer_line(line: &[u8]) -> ParsedEntry
    ensures { SaysNumbers result (expectation_in (drop 1 line.now)) }
{
    if line.len() < 2 {
        return ParsedEntry::Another;
    }
    if line[1] != b' ' {
        return ParsedEntry::Another;
    }
    ParsedEntry::Expects
}

// What a line says, whatever its length.
fn entry_line(line: &[u8], numbers: &mut [usize], bytes: &mut [u8]) -> ParsedEntry
    requires { (length numbers.old ≡ 18) × (length bytes.old ≡ most_written) }
    ensures { Says result bytes.new (entry_in line.now) }
{
    if line.len() == 0 {
        return ParsedEntry::Comment;
    }
    let letter = line[0];
    match letter {
        b'#' => ParsedEntry::Comment,
        b'=' => answer_line(line),
        b'X' => pairs_line(line, bytes),
        b'W' => short_text_line(line, bytes),
        _ => joined_line(line, letter, numbers, bytes),
    }
}

// What a line says. It comes without its end.
pub fn parse_entry(line: &[u8], numbers: &mut [usize], bytes: &mut [u8]) -> ParsedEntry
    requires { (length numbers.old ≡ 18) × (length bytes.old ≡ most_written) }
    ensures { Says result bytes.new (call_in line.now) }
{
    if LONGEST < line.len() {
        return ParsedEntry::Another;
    }
    entry_line(line, numbers, bytes)
}
