// A call log: calls as lines of text, so that a recorded run can be run again.
#![tactic(auto)]

mod answers;
mod parsing;

ghost use Rattle.std.specs.Prelude.{◌&&◌, ◌≡◌, leb, ◌∷◌, [], ◌++◌, ◌+◌, ◌≤◌, length, take};
ghost use Rattle.text_numerals.specs.Put.{Put};
ghost use Rattle.text_log.specs.LogLines.{letter_and_numbers, printable, write_line, line_of, fresh_line};
ghost use Rattle.text_log.specs.LogLines.{log_line_bytes, most_written, most_files, most_ordered};
ghost use Rattle.spec.specs.Messages.{Call};
ghost use Rattle.text_log.specs.Recorded.{request_line, recorded_line};

pub use answers::put_reply;
use buffers::parts::copy_to;
pub use parsing::{LONGEST, ParsedEntry, parse_entry};
use requests::Request;
use text_numerals::{put_byte, put_joined, put_list, put_number, put_pairs, put_spaced};

// The most bytes of a Write in a line; one of more is refused as this one is.
const MOST_WRITTEN: usize = 4097;

// The most file numbers of Fresh in a line, and the most transactions of an order; one of more is refused as
// these are.
const MOST_FILES: usize = 17;

const MOST_ORDERED: usize = 15;

// The most bytes of a line, without its end, in which a Write's bytes stand as they are.
const TEXT_LINE: usize = 128;

// The most bytes of a line, with its end.
pub const LOG_LINE_BYTES: usize = 8238;

// A letter with its numbers: the first directly behind it, each other behind a space.
fn put_numbers(out: &mut [u8], letter: u8, numbers: &[usize]) -> usize
    requires { (log_line_bytes ≤ length out.old) × (length numbers.now ≤ 4) }
    ensures { Put out.old 0 (letter_and_numbers letter numbers.now) out.new result }
{
    let next = put_byte(out, 0, letter);
    let [first, others @ ..] = numbers else {
        return next;
    };
    let mut next = put_number(out, next, *first);
    for n in others {
        next = put_spaced(out, next, *n);
    }
    next
}

// Whether a terminal shows every byte.
fn is_printable(bytes: &[u8]) -> bool
    ensures { result ≡ printable bytes.now }
{
    bytes.iter().all(|b| matches!(*b, b' '..=b'~'))
}

// Whether the bytes of a Write stand as they are in a line that they end at that place.
fn is_text(bytes: &[u8], after: usize) -> bool
    ensures { result ≡ leb after 128 && printable bytes.now }
{
    if TEXT_LINE < after {
        return false;
    }
    is_printable(bytes)
}

// A Write: printable bytes as they are where the line is short, otherwise as hexadecimal pairs.
fn put_write(out: &mut [u8], t: usize, d: usize, bytes: &[u8]) -> usize
    requires { (log_line_bytes ≤ length out.old) × (length bytes.now ≤ most_written) }
    ensures { Put out.old 0 (write_line t d bytes.now) out.new result }
{
    let end = put_numbers(out, b'W', &[t, d]);
    let next = put_byte(out, end, b' ');
    let after = next + bytes.len();
    if is_text(bytes, after) {
        copy_to(out, next, bytes);
        return after;
    }
    put_byte(out, 0, b'X');
    put_pairs(out, next, bytes)
}

// A Write of the front of its bytes.
fn put_front(out: &mut [u8], t: usize, d: usize, bytes: &[u8]) -> usize
    requires { log_line_bytes ≤ length out.old }
    ensures { Put out.old 0 (write_line t d (take most_written bytes.now))
        out.new result }
{
    let end = bytes.len().min(MOST_WRITTEN);
    put_write(out, t, d, &bytes[..end])
}

// The line of a request with the bytes of a Write and the length of the buffer for an answer, without its
// end.
fn put_request(out: &mut [u8], request: Request, bytes: &[u8], room: usize) -> usize
    requires { log_line_bytes ≤ length out.old }
    ensures { Put out.old 0 (request_line request bytes.now room)
        out.new result }
{
    match request {
        Request::Begin(t) => put_numbers(out, b'B', &[t]),
        Request::Seek(t, d, v) => put_numbers(out, b'S', &[t, d, v]),
        Request::Write(t, d) => put_front(out, t, d, bytes),
        Request::GetFilePointer(t, d) => put_numbers(out, b'P', &[t, d]),
        Request::Read(t, d, n) => put_numbers(out, b'R', &[t, d, n, room]),
        Request::Places(t, f) => put_numbers(out, b'L', &[t, f, room]),
        Request::Commit(t, minute) => put_numbers(out, b'C', &[t, minute]),
        Request::Abort(t) => put_numbers(out, b'A', &[t]),
        Request::SetWindow(f, start, end) => put_numbers(out, b'H', &[f, start, end]),
        Request::UndoCommit => put_byte(out, 0, b'U'),
    }
}

// The line of a call, with its end. Its bytes in the buffer are as many as are answered.
pub fn put_call(out: &mut [u8], request: Request, bytes: &[u8], room: usize) -> usize
    requires { log_line_bytes ≤ length out.old }
    ensures { Put out.old 0 (recorded_line request bytes.now room)
        out.new result }
{
    let next = put_request(out, request, bytes, room);
    put_byte(out, next, b'\n')
}

// The line of Fresh, with its end: at most 17 of its file numbers, as any other count than 16 is refused
// (R-16.1).
pub fn put_fresh(out: &mut [u8], files: &[u8]) -> usize
    requires { log_line_bytes ≤ length out.old }
    ensures { Put out.old 0 (fresh_line (take most_files files.now) ++ (10 ∷ []))
        out.new result }
{
    let next = put_byte(out, 0, b'F');
    let end = files.len().min(MOST_FILES);
    let next = put_joined(out, next, &files[..end]);
    put_byte(out, next, b'\n')
}

// The line of the best order, with its end: at most 15 of its transactions, as more than 8 are refused
// (R-16.1).
pub fn put_order(out: &mut [u8], list: &[u8], minute: usize, budget: usize) -> usize
    requires { log_line_bytes ≤ length out.old }
    ensures { Put out.old 0
        (line_of (Call.best_order (take most_ordered list.now) minute budget) ++ (10 ∷ []))
        out.new result }
{
    let next = put_numbers(out, b'O', &[minute, budget]);
    let end = list.len().min(MOST_ORDERED);
    let next = put_list(out, next, &list[..end]);
    put_byte(out, next, b'\n')
}
