// The lines of a trace (02, F-5; R-19.2): what a line asks. specs/Grammar.antt says which form a line has.
#![tactic(auto)]

ghost use Rattle.std.specs.Prelude.{drop};
ghost use Rattle.requests.specs.declared.Request.{Request};
ghost use Rattle.text_trace.specs.Grammar.{spaced, after_numeral, ends, writes, lettered};
ghost use Rattle.text_trace.specs.Parsing.{Reads, Parses};

use requests::Request;
use text_numerals::{digit, spaced_at};

// The most bytes of a line, without its end.
pub const TRACE_LINE_BYTES: usize = 128;

// The minute of every Commit of a trace.
const TRACE_MINUTE: usize = 0;

// What a line asks: a request, and where the bytes of a Write start (in any other, the line's end).
#[derive(Clone, Copy)]
pub struct Asked {
    pub request: Request,
    pub start: usize,
}

// The most digits of a number after its first.
const FURTHER: usize = 4;

// The request, where the line ends at that place.
fn whole_line(request: Request, line: &[u8], at: usize) -> Option<Asked>
    ensures { Reads line.now result (ends request (drop at line.now)) }
{
    if at < line.len() {
        return None;
    }
    Some(Asked {
        request,
        start: line.len(),
    })
}

// `P0 3`
fn pointer_line(line: &[u8], t: usize) -> Option<Asked>
    ensures { Reads line.now result
        (after_numeral (spaced (drop 2 line.now)) (λ d. ends (Request.GetFilePointer t d))) }
{
    let d = spaced_at(line, 2, FURTHER)?;
    whole_line(Request::GetFilePointer(t, d.value), line, d.end)
}

// `S0 3 17`
fn seek_line(line: &[u8], t: usize) -> Option<Asked>
    ensures { Reads line.now result
        (after_numeral (spaced (drop 2 line.now))
        (λ d rest. after_numeral (spaced rest) (λ n. ends (Request.Seek t d n)))) }
{
    let d = spaced_at(line, 2, FURTHER)?;
    let n = spaced_at(line, d.end, FURTHER)?;
    whole_line(Request::Seek(t, d.value, n.value), line, n.end)
}

// `R0 3 5`
fn read_line(line: &[u8], t: usize) -> Option<Asked>
    ensures { Reads line.now result
        (after_numeral (spaced (drop 2 line.now))
        (λ d rest. after_numeral (spaced rest) (λ n. ends (Request.Read t d n)))) }
{
    let d = spaced_at(line, 2, FURTHER)?;
    let n = spaced_at(line, d.end, FURTHER)?;
    whole_line(Request::Read(t, d.value, n.value), line, n.end)
}

// `W0 3 ` and the bytes up to the line's end
fn write_line(line: &[u8], t: usize) -> Option<Asked>
    ensures { Reads line.now result
        (after_numeral (spaced (drop 2 line.now)) (λ d. writes (Request.Write t d))) }
{
    let d = spaced_at(line, 2, FURTHER)?;
    if *line.get(d.end)? != b' ' {
        return None;
    }
    Some(Asked {
        request: Request::Write(t, d.value),
        start: d.end + 1,
    })
}

// The line with that letter and transaction.
fn by_letter(line: &[u8], letter: u8, t: usize) -> Option<Asked>
    ensures { Reads line.now result (lettered letter t (drop 2 line.now)) }
{
    match letter {
        b'B' => whole_line(Request::Begin(t), line, 2),
        b'C' => whole_line(Request::Commit(t, TRACE_MINUTE), line, 2),
        b'A' => whole_line(Request::Abort(t), line, 2),
        b'P' => pointer_line(line, t),
        b'S' => seek_line(line, t),
        b'R' => read_line(line, t),
        b'W' => write_line(line, t),
        _ => None,
    }
}

// What a line asks; none if it has another form. It comes without its end.
pub fn parse_line(line: &[u8]) -> Option<Asked>
    ensures { Parses line.now result }
{
    if TRACE_LINE_BYTES < line.len() {
        return None;
    }
    let [letter, transaction, ..] = line else {
        return None;
    };
    by_letter(line, *letter, digit(*transaction)?)
}
